//! From sources on the shelf to their classes beside them.

ghost use Rattle.std.specs.Prelude.{◌≡◌, [], ◌++◌, length, map, codes, IfOk, string_bytes};
ghost use Rattle.std.specs.Option.{option_map};
ghost use Rattle.erjang_top.specs.Answers.{class_file, first_twice};
ghost use Rattle.erjang_top.specs.Work.{Builds, BuildsFile, BuildsAll, PutsAll, Works, modules_of, puts_of, seen_words, twice_at};

use crate::fault::{Fault, Stopped};
use crate::first_path::emit::emit;
use crate::mangle::mangle;
use crate::shelf_file::get_file;
use crate::source::read_source;
use crate::words::CompileWords;
use ej_outside::{Failed, Shelf};
use ej_term::Text;
use indexmap::IndexSet;
use std::alloc::{AllocError, Global};

/// A class that is ready to be put: its module's name, the name of its file, and its bytes.
#[derive(Drop)]
struct ReadyClass {
    module: Text,
    path: String,
    bytes: Vec<u8>,
}

/// The path of a class file in a folder.
fn class_path(alloc: Global, outdir: &str, mangled: &str) -> Result<String, AllocError>
    ensures { IfOk result (λ path. string_bytes path ≡ outdir.now ++ codes "/" ++ mangled.now ++ codes ".class") }
{
    let mut path = String::from_str(alloc, outdir)?;
    path.push_str("/")?;
    path.push_str(mangled)?;
    path.push_str(".class")?;
    Ok(path)
}

/// The name of a module's class file.
fn class_file_name(alloc: Global, outdir: &str, name: &Text) -> Result<String, AllocError>
    ensures { IfOk result (λ file. string_bytes file ≡ class_file outdir.now name.now) }
{
    let mangled = mangle(alloc, name)?;
    class_path(alloc, outdir, mangled.as_str())
}

/// The class of a source, ready to be put.
fn build(alloc: Global, outdir: &str, source: &[u8]) -> Result<ReadyClass, Fault>
    ensures { Builds outdir.now source.now result }
{
    let module = read_source(alloc, source)?;
    let bytes = emit(alloc, &module)?;
    let path = class_file_name(alloc, outdir, &module.name)?;
    Ok(ReadyClass {
        module: module.name.clone()?,
        path,
        bytes,
    })
}

/// The class of a file, ready to be put.
fn build_file<S: Shelf>(
    alloc: Global,
    shelf: &mut S,
    outdir: &str,
    file: &str,
) -> Result<ReadyClass, Fault>
    ensures { BuildsFile outdir.now file.now (S.state shelf.old) result (S.state shelf.new) }
{
    let source = get_file(alloc, shelf, file)?;
    build(alloc, outdir, source.as_slice())
}

/// The class of each file, ready to be put. Each is read and wholly checked before the next.
fn build_all<'a, S: Shelf>(
    alloc: Global,
    shelf: &mut S,
    words: CompileWords<'a>,
) -> Result<Vec<ReadyClass>, Stopped<'a>>
    ensures { BuildsAll (seen_words words.entry) (S.state shelf.old) result (S.state shelf.new) }
{
    let mut classes = Vec::new(alloc);
    for file in words.files {
        match build_file(alloc, shelf, words.outdir, file.as_str()) {
            Ok(class) => {
                let Ok(()) = classes.push(class) else {
                    return Err(Stopped::NoMemory);
                };
            }
            Err(fault) => return Err(Stopped::At(file.as_str(), fault)),
        }
    }
    Ok(classes)
}

/// The first of the files whose module has the name of an earlier one's, with the place of that from 1.
fn same_module<'a>(
    alloc: Global,
    files: &'a [String],
    classes: &[ReadyClass],
) -> Result<Option<(&'a str, usize)>, AllocError>
    requires { length files.now ≡ length classes.now }
    ensures { IfOk result (λ found. option_map (λ twice. twice_at twice.0.now twice.1) found ≡ first_twice [] (map string_bytes files.now) (modules_of classes.now)) }
{
    let mut names: IndexSet<Text> = IndexSet::new(alloc);
    for (place, class) in classes.iter().enumerate() {
        let (earlier, is_new) = names.insert_full(class.module.clone()?)?;
        if !is_new {
            return Ok(Some((files[place].as_str(), earlier + 1)));
        }
    }
    Ok(None)
}

/// Puts the classes, up to the first that fails.
fn put_all<S: Shelf>(shelf: &mut S, classes: &[ReadyClass]) -> Result<(), Failed>
    ensures { PutsAll (puts_of classes.now) (S.state shelf.old) result (S.state shelf.new) }
{
    for class in classes {
        shelf.put(class.path.as_str(), class.bytes.as_slice())?;
    }
    Ok(())
}

/// Puts the class of each file beside what the shelf holds. All files are checked and all memory is taken before the
/// first put.
pub(crate) fn compile<'a, S: Shelf>(
    alloc: Global,
    shelf: &mut S,
    words: CompileWords<'a>,
) -> Result<(), Stopped<'a>>
    ensures { Works (seen_words words.entry) (S.state shelf.old) result (S.state shelf.new) }
{
    let classes = build_all(alloc, shelf, words)?;
    if let Some((file, earlier)) = same_module(alloc, words.files, classes.as_slice())? {
        return Err(Stopped::At(file, Fault::SameModule { earlier }));
    }
    match put_all(shelf, classes.as_slice()) {
        Ok(()) => Ok(()),
        Err(Failed) => Err(Stopped::WriteFailed),
    }
}
