//! Running a command of `tomled`.
ghost use Rattle.std.specs.Prelude.{◌≡◌, ◌≤◌, ◌⊎◌, [], ℕ, false, true, IfOk, IfSome, map, string_bytes};
ghost use Rattle.toml_edit_c.specs.Runs.{AreGiven, AreTooLong, AreUntouched, EndsOn, rooms, sizes_of, AreWords};
ghost use Rattle.toml_edit_model.specs.Text.{Text};

use crate::given::split;
use std::alloc::{AllocError, Global};
use std::str;
use toml_edit_command::{Ending, run};
use toml_edit_io::{Broken, Output, Watched};

/// How many bytes the texts of a run have.
#[repr(C)]
#[derive(Clone, Copy, Debug, Default)]
pub struct Sizes {
    pub output: usize,
    pub errors: usize,
}

/// The status of a run for which memory ran out.
const MEMORY: u32 = 3;

/// The status of a run whose texts do not fit in their rooms.
const SHORT: u32 = 5;

/// Runs a command of `tomled` on the input, and gives what it writes to its output and its errors.
///
/// Each word ends at a zero byte, or at the end of the words. Mistaken words come before a refused
/// input: the status is 1 only if they say what to do.
#[unsafe(no_mangle)]
pub extern "C" fn toml_edit_run(
    alloc: Global,
    words: &[u8],
    input: &[u8],
    output: &mut [u8],
    errors: &mut [u8],
    sizes: &mut Sizes,
) -> u32
    ensures status { (result ≤ 3) ⊎ (result ≡ 5) }
    ensures ended { result ≤ 2 → (out : Text) × (err : Text)
        × EndsOn words.now input.now result out err × (sizes.new ≡ sizes_of out err)
        × AreGiven out err (rooms output.old output.new errors.old errors.new) }
    ensures short { result ≡ 5 → (status : ℕ) × (out : Text) × (err : Text)
        × EndsOn words.now input.now status out err × (sizes.new ≡ sizes_of out err)
        × AreTooLong out err (rooms output.old output.new errors.old errors.new) }
    ensures memory { result ≡ 3 → (sizes.new ≡ sizes_of [] [])
        × AreUntouched (rooms output.old output.new errors.old errors.new) }
{
    *sizes = Sizes::default();
    let Some(ended) = ended_on(alloc, words, input) else {
        return MEMORY;
    };
    let (out, err) = (ended.output.as_slice(), ended.errors.as_slice());
    sizes.output = out.len();
    sizes.errors = err.len();
    if !give_both(out, err, output, errors) {
        return SHORT;
    }
    u32::from(ended.status)
}

/// Writes the texts to the fronts of the rooms, if both fit, and returns `true` then.
fn give_both(out: &[u8], err: &[u8], output: &mut [u8], errors: &mut [u8]) -> bool
    ensures given { result ≡ true → AreGiven out.now err.now
        (rooms output.old output.new errors.old errors.new) }
    ensures short { result ≡ false → AreTooLong out.now err.now
        (rooms output.old output.new errors.old errors.new) }
{
    if out.len() > output.len() || err.len() > errors.len() {
        return false;
    }
    output[..out.len()].copy_from_slice(out);
    errors[..err.len()].copy_from_slice(err);
    true
}

/// The status of a command that ended, and its texts.
#[derive(Drop)]
pub struct Ended {
    pub status: u8,
    pub output: Vec<u8>,
    pub errors: Vec<u8>,
}

/// An output in memory, which fails if that runs out.
#[derive(Drop)]
pub struct Held {
    pub bytes: Vec<u8>,
    pub failed: bool,
}

impl Held {
    /// Returns an output that holds nothing.
    pub fn new(alloc: Global) -> Held
        ensures empty { result.bytes.items ≡ [] }
        ensures works { result.failed ≡ false }
    {
        Held {
            bytes: Vec::new(alloc),
            failed: false,
        }
    }
}

impl Output for Held {
    ghost use Rattle.std.specs.Prelude.{Some};

    ghost contents = { λ held. Some held.bytes.items };

    ghost has_failed = { λ held. held.failed };

    fn write(&mut self, piece: &[u8]) -> Result<usize, Broken> {
        if self.bytes.extend_from_slice(piece).is_err() {
            self.failed = true;
            return Err(Broken);
        }
        Ok(piece.len())
    }

    fn failed(&self) -> bool {
        self.failed
    }
}

/// Returns how the command that the words say ends on the input, or `None` if out of memory.
pub fn ended_on(alloc: Global, words: &[u8], input: &[u8]) -> Option<Ended>
    ensures { IfSome result (λ e. (e.status ≤ 2)
        × EndsOn words.now input.now e.status e.output.items e.errors.items) }
{
    let Ok(words) = words_of(alloc, words) else {
        return None;
    };
    let (mut out, mut err) = (Held::new(alloc), Held::new(alloc));
    let (words, mut input) = (words.as_slice(), Watched::new(input));
    let status = run(alloc, Ending::Call, words, &mut input, &mut out, &mut err);
    if status > 2 || err.failed {
        return None;
    }
    Some(Ended {
        status,
        output: out.bytes,
        errors: err.bytes,
    })
}

/// Returns the words of a call, which has none if they are not UTF-8.
fn words_of(alloc: Global, bytes: &[u8]) -> Result<Vec<String>, AllocError>
    ensures { IfOk result (λ words. AreWords bytes.now (map string_bytes words.items)) }
{
    let mut words = Vec::new(alloc);
    let Ok(text) = str::from_utf8(bytes) else {
        return Ok(words);
    };
    let parts = split(alloc, text)?;
    for part in parts.as_slice() {
        words.push(String::from_str(alloc, *part)?)?;
    }
    Ok(words)
}
