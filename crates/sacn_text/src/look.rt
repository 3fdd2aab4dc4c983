//! The line that a look prints.
ghost use Rattle.std.specs.Prelude.{◌≡◌, ◌<◌, ◌+◌, ◌++◌, drop, string_bytes, IfOk, OnOk};
ghost use Rattle.std.specs.Fmt.{decimal};
ghost use Rattle.sacn_text.specs.Looks.{slot_words, slots_words, frame_words, look_top, look_line};

use crate::printed_names::join;
use std::alloc::{AllocError, Global};

/// The octets of the longest words of a frame: 512 slots of three digits, each with a level of three.
const LIT_OCTETS: usize = 4096;

// The digit of a number below ten.
fn digit(number: usize) -> u8
    requires { number < 10 }
    ensures { result ≡ 48 + number }
{
    b'0' + number as u8
}

// Adds a number below a hundred in decimals.
#[tactic(auto, using(crate::proofs::ShortNumbers::of_one, crate::proofs::ShortNumbers::of_two))]
fn push_shorter(text: &mut Vec<u8>, number: usize) -> Result<(), AllocError>
    requires { number < 100 }
    ensures { OnOk result (text.new.items ≡ text.old.items ++ decimal number) }
{
    if number < 10 {
        text.push(digit(number))?;
        return Ok(());
    }
    text.push(digit(number / 10))?;
    text.push(digit(number % 10))?;
    Ok(())
}

// Adds a number below a thousand in decimals, digit by digit: what a formatter writes, without the text that it would make first.
#[tactic(auto, using(crate::proofs::ShortNumbers::of_one, crate::proofs::ShortNumbers::of_more))]
fn push_short(text: &mut Vec<u8>, number: usize) -> Result<(), AllocError>
    requires { number < 1000 }
    ensures { OnOk result (text.new.items ≡ text.old.items ++ decimal number) }
{
    if number < 10 {
        text.push(digit(number))?;
        return Ok(());
    }
    push_shorter(text, number / 10)?;
    text.push(digit(number % 10))?;
    Ok(())
}

// Adds a slot with its level after a space, nothing where it is dark. The first lit one takes the room for all.
fn push_slot(text: &mut Vec<u8>, slot: usize, level: u8) -> Result<(), AllocError>
    requires { slot < 1000 }
    ensures { OnOk result (text.new.items ≡ text.old.items ++ slot_words slot level) }
{
    if level == 0 {
        return Ok(());
    }
    if text.is_empty() {
        text.reserve(LIT_OCTETS)?;
    }
    text.push(b' ')?;
    push_short(text, slot)?;
    text.push(b'@')?;
    push_short(text, usize::from(level))
}

// The lit slots of a frame, behind its start code.
fn slots_words(alloc: Global, frame: &[u8; 513]) -> Result<Vec<u8>, AllocError>
    ensures { IfOk result (λ text. text.items ≡ slots_words 1 (drop 1 frame.now)) }
{
    let mut text = Vec::new(alloc);
    for slot in 1..513 {
        push_slot(&mut text, slot, frame[slot])?;
    }
    Ok(text)
}

/// What a frame shows: its lit slots, each as ` SLOT@LEVEL`, or ` dark`. Slots count from 1.
pub fn frame_words(alloc: Global, frame: &[u8; 513]) -> Result<Vec<u8>, AllocError>
    ensures { IfOk result (λ text. text.items ≡ frame_words frame.now) }
{
    let text = slots_words(alloc, frame)?;
    if text.is_empty() {
        return Vec::from_slice(alloc, b" dark");
    }
    Ok(text)
}

// What stands before it.
fn look_top(alloc: Global, node: usize, port: u8, moment: u64) -> Result<String, AllocError>
    ensures { IfOk result (λ text. string_bytes text ≡ look_top node port moment) }
{
    format!(in alloc; "{node} {port} {moment}")
}

/// The line of a look at a node's port at a moment, with the words of what it shows.
pub fn look_line(
    alloc: Global,
    node: usize,
    port: u8,
    moment: u64,
    words: &[u8],
) -> Result<Vec<u8>, AllocError>
    ensures { IfOk result (λ text. text.items ≡ look_line node port moment words.now) }
{
    let top = look_top(alloc, node, port, moment)?;
    join(alloc, top.as_bytes(), words, b"\n")
}
