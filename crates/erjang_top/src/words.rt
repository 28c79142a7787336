//! The words of a command.

ghost use Rattle.std.specs.Prelude.{◌≡◌, map, string_bytes};
ghost use Rattle.std.specs.Option.{option_map};
ghost use Rattle.erjang_top.specs.Words as spec;
ghost use Rattle.erjang_top.specs.Work.{seen_command};

/// The most files of a command.
const MOST_FILES: usize = 1000;

/// `compile OUTDIR FILE...`: where the classes go, and the sources' names.
#[derive(Clone, Copy)]
pub(crate) struct CompileWords<'a> {
    pub(crate) outdir: &'a str,
    pub(crate) files: &'a [String],
}

/// What is to be done.
#[derive(Clone, Copy)]
pub(crate) enum Command<'a> {
    /// The classes of sources are put.
    Compile(CompileWords<'a>),
    /// The classes of these names are verified.
    Verify(&'a [String]),
}

/// Whether these are 1 to 1,000 words, none of them empty.
fn are_files(files: &[String]) -> bool
    ensures { result ≡ spec.are_files (map string_bytes files.now) }
{
    if files.is_empty() || files.len() > MOST_FILES {
        return false;
    }
    for file in files {
        if file.is_empty() {
            return false;
        }
    }
    true
}

/// The words behind `compile`, or none where they are not its.
fn compile_of(words: &[String]) -> Option<Command<'_>>
    ensures { option_map seen_command result ≡ spec.compile_of (map string_bytes words.now) }
{
    match words {
        [outdir, files @ ..] if !outdir.is_empty() && are_files(files) => {
            Some(Command::Compile(CompileWords {
                outdir: outdir.as_str(),
                files,
            }))
        }
        _ => None,
    }
}

/// The words behind `verify`, or none where they are not its.
fn verify_of(files: &[String]) -> Option<Command<'_>>
    ensures { option_map seen_command result ≡ spec.verify_of (map string_bytes files.now) }
{
    if are_files(files) {
        return Some(Command::Verify(files));
    }
    None
}

/// The words as those of a command, or none where they are not.
pub(crate) fn command_of(words: &[String]) -> Option<Command<'_>>
    ensures { option_map seen_command result ≡ spec.command_of (map string_bytes words.now) }
{
    match words {
        [word, words @ ..] if word.as_str() == "compile" => compile_of(words),
        [word, words @ ..] if word.as_str() == "verify" => verify_of(words),
        _ => None,
    }
}
