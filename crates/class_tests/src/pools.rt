//! The indices of the entries of a constant pool, and a pool that is full.

use constant_pool::{Pool, PoolFault};
use jvm_code::Constant;
use sqlite_items::Items;
use std::alloc::{AllocError, Global};
use std::test::Fail;

fn text(alloc: Global, text: &[u8]) -> Result<Constant, AllocError> {
    Ok(Constant::Utf8(Items::from_slice(alloc, text)?))
}

#[test]
fn gives_indices(rt: HostRuntime) -> Result<(), Fail> {
    let alloc = rt.alloc();
    let mut pool = Pool::new(alloc);
    assert_eq!(rt; pool.index_of(text(alloc, b"a")?), Ok(1));
    assert_eq!(rt; pool.index_of(Constant::Long(-1)), Ok(2));
    assert_eq!(rt; pool.index_of(text(alloc, b"a")?), Ok(1));
    assert_eq!(rt; pool.index_of(text(alloc, b"b")?), Ok(4));
    assert_eq!(rt; pool.index_of(Constant::Integer(-1)), Ok(5));
    assert_eq!(rt; pool.index_of(Constant::Class(1)), Ok(6));
    assert_eq!(rt; pool.index_of(Constant::Str(1)), Ok(7));
    assert_eq!(rt; pool.index_of(Constant::Methodref(1, 2)), Ok(8));
    assert_eq!(rt; pool.index_of(Constant::NameAndType(1, 2)), Ok(9));
    assert_eq!(rt; pool.index_of(Constant::Methodref(2, 1)), Ok(10));
    assert_eq!(rt; pool.index_of(Constant::Class(1)), Ok(6));
    assert_eq!(rt; pool.index_of(Constant::Gap), Ok(0));
    let entries = pool.entries()?;
    assert_eq!(rt; entries.len(), 11);
    assert!(rt; entries.get(3) == Some(&Constant::Gap));
    assert!(rt; entries.get(2) == Some(&Constant::Long(-1)));
    Ok(())
}

#[test]
fn is_full(rt: HostRuntime) -> Result<(), Fail> {
    let mut pool = Pool::new(rt.alloc());
    for value in 0..65533 {
        pool.index_of(Constant::Integer(value))?;
    }
    assert_eq!(rt; pool.index_of(Constant::Long(0)), Err(PoolFault::PoolFull));
    assert_eq!(rt; pool.index_of(Constant::Integer(65533)), Ok(65534));
    assert_eq!(rt;
        pool.index_of(Constant::Integer(65534)),
        Err(PoolFault::PoolFull)
    );
    assert_eq!(rt; pool.index_of(Constant::Integer(0)), Ok(1));
    assert_eq!(rt; pool.entries()?.len(), 65535);
    Ok(())
}
