//! Files, and the input in place of one (own profile).
ghost use Rattle.std.specs.Prelude.{◌≡◌, ◌⊎◌, ◌||◌, Err, IfOk, option_map, string_bytes};
ghost use Rattle.meter_server.specs.Sources as spec;
ghost use Rattle.meter_server.specs.Sources.{given_of};
ghost use Rattle.step_words.specs.Translating.{ReadsAll};

use std::alloc::Global;
use std::io::Read;
use text_files::{FileFault, TextFiles, fault_of, text_of};

/// Whether a file's name stands for the input.
pub(crate) fn is_input(path: &str) -> bool
    ensures { result ≡ spec.is_input path.now }
{
    path == "-"
}

/// Whether one of two files' names stands for the input.
pub(crate) fn is_either_input(first: &str, second: &str) -> bool
    ensures { result ≡ spec.is_input first.now || spec.is_input second.now }
{
    is_input(first) || is_input(second)
}

/// Whether a file's name, or one of two others where these are given, stands for the input.
pub(crate) fn is_any_input(name: &str, first: Option<&str>, second: Option<&str>) -> bool
    ensures { result ≡ spec.is_input name.now || (spec.is_given_input (option_map (λ name. name.now) first.entry)
        || spec.is_given_input (option_map (λ name. name.now) second.entry)) }
{
    is_input(name) || is_given_input(first) || is_given_input(second)
}

/// Whether a file's name, if one is given, stands for the input.
pub(crate) fn is_given_input(name: Option<&str>) -> bool
    ensures { result ≡ spec.is_given_input (option_map (λ name. name.now) name.entry) }
{
    match name {
        Some(name) => is_input(name),
        None => false,
    }
}

/// Files, and what an input gave in place of the one that is named `-`, where it was read.
#[derive(Drop)]
pub(crate) struct Sources<'a, F> {
    files: &'a F,
    given: Option<Result<String, FileFault>>,
    alloc: Global,
}

impl<'a, F: TextFiles> Sources<'a, F> {
    ghost use Rattle.std.specs.Prelude.{◌≡◌, option_map, string_bytes};
    ghost use Rattle.meter_server.specs.Sources.{ReadsWhere, given_of};

    /// Files, and the input, which is read to its end where it is named.
    pub(crate) fn new<I: Read>(
        alloc: Global,
        files: &'a F,
        input: &mut I,
        is_named: bool,
    ) -> Sources<'a, F>
        ensures files { result.files.now ≡ files.now }
        ensures given { ReadsWhere is_named (I.remaining input.old)
            (I.remaining input.new) (option_map (given_of string_bytes) result.given) }
    {
        let given = if is_named {
            Some(read_input(alloc, input))
        } else {
            None
        };
        Sources {
            files,
            given,
            alloc,
        }
    }
}

impl<'a, F: TextFiles> TextFiles for Sources<'a, F> {
    ghost use Rattle.std.specs.Prelude.{option_map, string_bytes};
    ghost use Rattle.meter_server.specs.Sources.{MayGive, given_of};

    ghost may_read = { λ sources. MayGive (F.may_read sources.files.now)
        (option_map (given_of string_bytes) sources.given) };

    fn read(&self, path: &str) -> Result<String, FileFault> {
        let Some(given) = &self.given else {
            return self.files.read(path);
        };
        if is_input(path) {
            copy_of(self.alloc, given)
        } else {
            self.files.read(path)
        }
    }
}

/// The whole input as a text.
fn read_input<I: Read>(alloc: Global, input: &mut I) -> Result<String, FileFault>
    ensures { IfOk result
        (λ text. ReadsAll (string_bytes text) (I.remaining input.old) (I.remaining input.new)) }
{
    let mut bytes = Vec::new(alloc);
    match input.read_to_end(&mut bytes) {
        Ok(_) => text_of(bytes),
        Err(error) => Err(fault_of(error.kind())),
    }
}

/// A copy of what was given, or that memory was refused.
fn copy_of(alloc: Global, given: &Result<String, FileFault>) -> Result<String, FileFault>
    ensures { (given_of string_bytes result ≡ given_of string_bytes given.now)
        ⊎ (given_of string_bytes result ≡ Err FileFault.Memory) }
{
    match given {
        Ok(text) => match String::from_str(alloc, text.as_str()) {
            Ok(copy) => Ok(copy),
            Err(_) => Err(FileFault::Memory),
        },
        Err(why) => Err(*why),
    }
}
