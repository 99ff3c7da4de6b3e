// Tape numbers are little-endian in base 128: a byte holds seven bits, and its top bit tells that more follow.
ghost use Rattle.std.specs.Prelude.{◌≡◌, ◌+◌, ◌-◌, ◌*◌, ◌%◌, ◌<◌, ◌≤◌, true, ◌++◌, length, is_ok, if◌then◌else◌, vec_len, vec_capacity, MatchResult};
ghost use Rattle.tape_number.specs.Numbers.{byte_form, read_number, over_top, padded, number_place, group_size, last_group, IsU32, OneForm};

use crate::fault::NumberFault;
use std::alloc::AllocError;

// A byte below this is the last of its number.
const HIGH: u8 = 128;

// How many values a group has.
const GROUP: u32 = HIGH as u32;

// The last group that a number can have, counted from 0.
const LAST_GROUP: usize = 4;

// The greatest value of the last group: 28 bits lie below it.
const LAST_TOP: u8 = 0x0F;

// The most bytes that a number takes.
const MOST: usize = LAST_GROUP + 1;

// Whether group i, read from byte b, would take the number over 32 bits.
fn is_over_top(i: usize, b: u8) -> bool
    ensures { result ≡ over_top i b }
{
    i == LAST_GROUP && b > LAST_TOP
}

// Whether the last byte b, of group i, adds nothing: the number then has a shorter form.
fn is_padded(i: usize, b: u8) -> bool
    ensures { result ≡ padded i b }
{
    i > 0 && b == 0
}

// The seven bits that a byte gives.
fn group(b: u8) -> u32
    ensures { result ≡ b % group_size }
{
    u32::from(b % HIGH)
}

// The byte of a number's lowest group, where others follow.
fn high_byte(rest: u32) -> u8
    ensures { result ≡ rest % group_size + group_size }
{
    (rest % GROUP) as u8 + HIGH
}

// The weight of the next group.
fn next_weight(weight: u32) -> u32
    requires { IsU32 (weight * group_size) }
    ensures { result ≡ weight * group_size }
{
    weight * GROUP
}

// The number at the front of some bytes, and how many of them it takes.
#[tactic(auto, using(crate::proofs::Forms::one_form, crate::proofs::Groups::groups), unfolding(crate::specs::Numbers::read_number))]
pub fn decode(bytes: &[u8]) -> Result<(u32, usize), NumberFault>
    ensures value { result ≡ read_number bytes.now }
    ensures within { MatchResult result (λ x. (0 < x.1) × (x.1 ≤ length bytes.now)) (λ f. number_place f ≤ length bytes.now) }
    ensures law { OneForm }
{
    let mut value: u32 = 0;
    let mut weight: u32 = 1;
    for (i, b) in bytes.iter().enumerate() {
        if is_over_top(i, *b) {
            return Err(NumberFault::Form { place: 0 });
        }
        value += group(*b) * weight;
        if *b < HIGH {
            if is_padded(i, *b) {
                return Err(NumberFault::Form { place: 0 });
            }
            return Ok((value, i + 1));
        }
        weight = next_weight(weight);
    }
    Err(NumberFault::Cut { place: bytes.len() })
}

// Adds the byte form of a number to `out`; without memory for it, `out` stays as it was.
#[tactic(auto, using(crate::proofs::Forms::one_form))]
pub fn encode(value: u32, out: &mut Vec<u8>) -> Result<(), AllocError>
    ensures form { out.new.items ≡ (if is_ok result then out.old.items ++ byte_form value else out.old.items) }
    ensures room { vec_len out.old + (last_group + 1) ≤ vec_capacity out.old → is_ok result ≡ true }
    ensures law { OneForm }
{
    out.reserve(MOST)?;
    let mut rest = value;
    while rest >= GROUP {
        out.push_reserved(high_byte(rest));
        rest /= GROUP;
    }
    out.push_reserved(rest as u8);
    Ok(())
}
