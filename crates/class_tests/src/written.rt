//! Classes that have bytes, and classes that have none.

use class_file::{WriteFault, parse, write};
use jvm_code::{Class, Constant, Method, Op, Width};
use sqlite_items::Items;
use std::alloc::{AllocError, Global};
use std::test::Fail;

/// A class with one method, `iload_1; ireturn`.
const SMALL: &[u8] =
    b"\xca\xfe\xba\xbe\0\0\0\x32\0\x08\x01\0\x07erl/m/a\x07\0\x01\x01\0\x10java/lang/Object\x07\0\x03\
\x01\0\x04f__0\x01\0\x0e(Lerl/Proc;I)I\x01\0\x04Code\0\x21\0\x02\0\x04\0\0\0\0\0\x01\0\x09\0\x05\0\x06\0\x01\0\x07\
\0\0\0\x0e\0\x01\0\x02\0\0\0\x02\x1b\xac\0\0\0\0\0\0";

fn text(alloc: Global, text: &[u8]) -> Result<Constant, AllocError> {
    Ok(Constant::Utf8(Items::from_slice(alloc, text)?))
}

fn pool(alloc: Global) -> Result<Items<Constant>, AllocError> {
    let mut pool = Items::new(alloc);
    pool.push(Constant::Gap)?;
    pool.push(text(alloc, b"erl/m/a")?)?;
    pool.push(Constant::Class(1))?;
    pool.push(text(alloc, b"java/lang/Object")?)?;
    pool.push(Constant::Class(3))?;
    pool.push(text(alloc, b"f__0")?)?;
    pool.push(text(alloc, b"(Lerl/Proc;I)I")?)?;
    pool.push(text(alloc, b"Code")?)?;
    Ok(pool)
}

/// The small class with other code.
fn class(alloc: Global, code: Items<(u16, Op)>) -> Result<Class, AllocError> {
    let mut methods = Items::new(alloc);
    methods.push(Method {
        flags: 0x0009,
        name: 5,
        descriptor: 6,
        code_name: 7,
        max_stack: 1,
        max_locals: 2,
        code,
        maps: None,
    })?;
    Ok(Class {
        flags: 0x0021,
        pool: pool(alloc)?,
        this: 2,
        above: 4,
        methods,
    })
}

fn small(alloc: Global) -> Result<Class, AllocError> {
    let mut code = Items::new(alloc);
    code.push((0, Op::ILoad(Width::Short, 1)))?;
    code.push((1, Op::IReturn))?;
    class(alloc, code)
}

/// What writing the small class with this one instruction answers, if it is a fault.
fn fault_of(alloc: Global, pc: u16, op: Op) -> Result<Option<WriteFault>, AllocError> {
    let mut code = Items::new(alloc);
    code.push((pc, op))?;
    Ok(write(alloc, &class(alloc, code)?).err())
}

fn offsets(alloc: Global, count: u32) -> Result<Items<i32>, AllocError> {
    let mut offsets = Items::new(alloc);
    for _ in 0..count {
        offsets.push(0)?;
    }
    Ok(offsets)
}

fn pairs(alloc: Global, one: i32, other: i32) -> Result<Items<(i32, i32)>, AllocError> {
    Items::from_slice(alloc, &[(one, 0), (other, 0)])
}

#[test]
fn a_class_is_written_and_read(rt: HostRuntime) -> Result<(), Fail> {
    let class = small(rt.alloc())?;
    let bytes = write(rt.alloc(), &class)?;
    assert!(rt; bytes.as_slice() == SMALL);
    assert!(rt; parse(rt.alloc(), SMALL)? == class);
    Ok(())
}

#[test]
fn instructions_that_are_spelled_have_bytes(rt: HostRuntime) -> Result<(), Fail> {
    let alloc = rt.alloc();
    assert_eq!(rt; fault_of(alloc, 0, Op::IConst(5))?, None);
    assert_eq!(rt; fault_of(alloc, 0, Op::ILoad(Width::Short, 3))?, None);
    assert_eq!(rt; fault_of(alloc, 0, Op::ALoad(Width::Byte, 255))?, None);
    assert_eq!(rt; fault_of(alloc, 0, Op::IfIcmp(164, -1))?, None);
    let one = offsets(alloc, 1)?;
    assert_eq!(rt;
        fault_of(alloc, 0, Op::TableSwitch(0, i32::MAX, one))?,
        None
    );
    let rising = pairs(alloc, -1, 1)?;
    assert_eq!(rt; fault_of(alloc, 0, Op::LookupSwitch(0, rising))?, None);
    Ok(())
}

#[test]
fn instructions_that_none_is_have_no_bytes(rt: HostRuntime) -> Result<(), Fail> {
    let alloc = rt.alloc();
    let none = Some(WriteFault::NoProfile);
    assert_eq!(rt; fault_of(alloc, 1, Op::IReturn)?, none);
    assert_eq!(rt; fault_of(alloc, 0, Op::IConst(6))?, none);
    assert_eq!(rt; fault_of(alloc, 0, Op::ILoad(Width::Short, 16))?, none);
    assert_eq!(rt; fault_of(alloc, 0, Op::ALoad(Width::Byte, 256))?, none);
    assert_eq!(rt; fault_of(alloc, 0, Op::IfIcmp(153, 0))?, none);
    assert_eq!(rt; fault_of(alloc, 0, Op::Ldc(1))?, none);
    let no = offsets(alloc, 0)?;
    assert_eq!(rt; fault_of(alloc, 0, Op::TableSwitch(0, 0, no))?, none);
    let two = offsets(alloc, 2)?;
    assert_eq!(rt;
        fault_of(alloc, 0, Op::TableSwitch(0, i32::MAX, two))?,
        none
    );
    let equal = pairs(alloc, 1, 1)?;
    assert_eq!(rt; fault_of(alloc, 0, Op::LookupSwitch(0, equal))?, none);
    Ok(())
}

#[test]
fn counts_that_do_not_fit_have_no_bytes(rt: HostRuntime) -> Result<(), Fail> {
    let alloc = rt.alloc();
    let mut class = small(alloc)?;
    for value in 0..65527 {
        class.pool.push(Constant::Integer(value))?;
    }
    assert!(rt; write(alloc, &class).is_ok());
    class.pool.push(Constant::Integer(0))?;
    assert_eq!(rt; write(alloc, &class).err(), Some(WriteFault::NoProfile));
    class.pool = pool(alloc)?;
    class.methods = Items::new(alloc);
    assert!(rt; write(alloc, &class).is_ok());
    Ok(())
}
