//! What is wrong with a setup or a show, for C.
ghost use Rattle.std.specs.Prelude.{◌≡◌, ◌==◌, ◌≤◌, ◌<◌, ◌++◌, is_none, length, take, drop, string_bytes, string_len, IfOk};
ghost use Rattle.std.specs.Str.{IsUtf8};
ghost use Rattle.sacn_check.specs.Refusals.{refusal};
ghost use Rattle.sacn_check.specs.declared.kinds.FileKind.TheVariants as file;
ghost use Rattle.sacn_c.specs.Faults.{faults_status};
ghost use Rattle.sacn_c.specs.declared.faults.TheConstants.{MAX_TEXT_OCTETS};
ghost use Rattle.sacn_c.specs.declared.status.TheConstants.{DONE, OUT_OF_MEMORY};

use crate::rooms::put_list;
use crate::status::{LENGTH, OUT_OF_MEMORY};
use sacn_check::{FileKind, fault_lines, faults_of};
use std::alloc::{AllocError, Global};

/// The most octets of a text that is checked, 1 MiB, as of a file.
pub const MAX_TEXT_OCTETS: usize = 1_048_576;

/// The lines that `sacn check` prints of a file with faults, without its name; none where these octets are text and the kind's reader gives a value.
fn lines_of(alloc: Global, kind: FileKind, octets: &[u8]) -> Result<String, AllocError>
    ensures text { IsUtf8 octets.now → IfOk result
        (λ lines. (string_len lines == 0) ≡ is_none (refusal kind octets.now)) }
    ensures no_text { ¬ (IsUtf8 octets.now) → IfOk result
        (λ lines. 1 ≤ length (string_bytes lines)) }
{
    match std::str::from_utf8(octets) {
        Ok(text) => {
            let findings = faults_of(alloc, kind, text)?;
            fault_lines(alloc, &findings)
        }
        Err(_) => String::from_str(alloc, "NotText: a text is UTF-8\n"),
    }
}

/// Writes these lines to the front of a room, and tells their octets. The status is `LENGTH` where the text is longer than `MAX_TEXT_OCTETS`, and nothing
/// is told then, or where there is too little room, and `OUT_OF_MEMORY`.
fn put_faults(alloc: Global, kind: FileKind, text: &[u8], room: &mut [u8], count: &mut usize) -> u32
    ensures status { (result ≡ OUT_OF_MEMORY → ⊥)
        → result ≡ faults_status (length text.now) (length room.old) count.new }
    ensures faults { (result ≡ OUT_OF_MEMORY → ⊥) → length text.now ≤ MAX_TEXT_OCTETS
        → IsUtf8 text.now → (count.new == 0) ≡ is_none (refusal kind text.now) }
    ensures no_text { (result ≡ OUT_OF_MEMORY → ⊥) → length text.now ≤ MAX_TEXT_OCTETS
        → ¬ (IsUtf8 text.now) → 1 ≤ count.new }
    ensures lines { result ≡ DONE → room.new ≡ take count.new room.new ++ drop count.new room.old }
    ensures refused { (result ≡ DONE → ⊥) → room.new ≡ room.old }
    ensures lacking { result ≡ OUT_OF_MEMORY → count.new ≡ count.old }
    ensures long { MAX_TEXT_OCTETS < length text.now → count.new ≡ count.old }
{
    if MAX_TEXT_OCTETS < text.len() {
        return LENGTH;
    }
    match lines_of(alloc, kind, text) {
        Ok(lines) => put_list(lines.as_bytes(), room, count),
        Err(_) => OUT_OF_MEMORY,
    }
}

/// Writes the faults of a setup's text, as `put_faults`: no line exactly where its reader gives a setup.
#[unsafe(no_mangle)]
pub extern "C" fn sacn_proved_setup_faults(
    alloc: Global,
    text: &[u8],
    lines: &mut [u8],
    count: &mut usize,
) -> u32
    ensures status { (result ≡ OUT_OF_MEMORY → ⊥)
        → result ≡ faults_status (length text.now) (length lines.old) count.new }
    ensures faults { (result ≡ OUT_OF_MEMORY → ⊥) → length text.now ≤ MAX_TEXT_OCTETS
        → IsUtf8 text.now → (count.new == 0) ≡ is_none (refusal file.Setup text.now) }
    ensures no_text { (result ≡ OUT_OF_MEMORY → ⊥) → length text.now ≤ MAX_TEXT_OCTETS
        → ¬ (IsUtf8 text.now) → 1 ≤ count.new }
    ensures lines { result ≡ DONE
        → lines.new ≡ take count.new lines.new ++ drop count.new lines.old }
    ensures refused { (result ≡ DONE → ⊥) → lines.new ≡ lines.old }
    ensures lacking { result ≡ OUT_OF_MEMORY → count.new ≡ count.old }
    ensures long { MAX_TEXT_OCTETS < length text.now → count.new ≡ count.old }
{
    put_faults(alloc, FileKind::Setup, text, lines, count)
}

/// Writes the faults of a show's text, as `put_faults`: no line exactly where its reader gives a show.
#[unsafe(no_mangle)]
pub extern "C" fn sacn_proved_show_faults(
    alloc: Global,
    text: &[u8],
    lines: &mut [u8],
    count: &mut usize,
) -> u32
    ensures status { (result ≡ OUT_OF_MEMORY → ⊥)
        → result ≡ faults_status (length text.now) (length lines.old) count.new }
    ensures faults { (result ≡ OUT_OF_MEMORY → ⊥) → length text.now ≤ MAX_TEXT_OCTETS
        → IsUtf8 text.now → (count.new == 0) ≡ is_none (refusal file.Show text.now) }
    ensures no_text { (result ≡ OUT_OF_MEMORY → ⊥) → length text.now ≤ MAX_TEXT_OCTETS
        → ¬ (IsUtf8 text.now) → 1 ≤ count.new }
    ensures lines { result ≡ DONE
        → lines.new ≡ take count.new lines.new ++ drop count.new lines.old }
    ensures refused { (result ≡ DONE → ⊥) → lines.new ≡ lines.old }
    ensures lacking { result ≡ OUT_OF_MEMORY → count.new ≡ count.old }
    ensures long { MAX_TEXT_OCTETS < length text.now → count.new ≡ count.old }
{
    put_faults(alloc, FileKind::Show, text, lines, count)
}
