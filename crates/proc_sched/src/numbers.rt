//! Rising numbers, as the links and the live processes of a view are kept. Each call makes about log n comparisons; what is
//! put in or taken out moves the numbers behind it.

ghost use Rattle.std.specs.Prelude.{◌≡◌, OnOk};
ghost use Rattle.ej_world.specs.Choices as world;
ghost use Rattle.proc_sched.specs.Stands.{Rising};

use std::alloc::AllocError;

/// Puts a number at its place, where it is not there yet. The error says that memory was wanting.
pub fn add(numbers: &mut Vec<u64>, number: u64) -> Result<(), AllocError>
    requires rising { Rising numbers.old.items }
    ensures { OnOk result (numbers.new.items ≡ world.with_number number numbers.old.items) }
{
    match numbers.binary_search(&number) {
        Ok(_) => Ok(()),
        Err(place) => {
            numbers.insert(place, number)?;
            Ok(())
        }
    }
}

/// Takes a number away, where it is there.
pub fn remove(numbers: &mut Vec<u64>, number: u64)
    requires rising { Rising numbers.old.items }
    ensures { numbers.new.items ≡ world.without_number number numbers.old.items }
{
    if let Ok(place) = numbers.binary_search(&number) {
        numbers.remove(place);
    }
}

/// Whether a number is there.
pub fn holds(numbers: &[u64], number: u64) -> bool
    requires rising { Rising numbers.now }
    ensures { result ≡ world.holds numbers.now number }
{
    numbers.binary_search(&number).is_ok()
}
