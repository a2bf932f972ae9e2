//! Records of one byte or four each, as the host keeps them.
ghost use Rattle.std.specs.Prelude.{◌≡◌, ◌++◌, ◌∷◌, [], ℕ, List, None, IfOk, IfErr, OnOk, length, map, slice_index_or};
ghost use Rattle.gm_table.specs.Packed.{unpacked as unpacked_spec};
ghost use Rattle.gm_engine.specs.Records.{record_with, words_of, records_of, Stand};
ghost use Rattle.gm_engine.specs.Refusing.{IsUnadded};

use crate::refusal::Refusal;
use crate::width::Width;
use gm_game::game::Game;
use gm_game::position::Solved;
use gm_table::number::{number_of, short_of, unpacked};
use gm_table::packed::Packed;
use gm_table::table::Table;
use std::alloc::Global;

/// Packs the records that bytes stand for.
pub fn pack(alloc: Global, width: Width, bytes: &[u8]) -> Result<Packed, Refusal>
    ensures records { IfOk result (λ packed. packed ≡ records_of width bytes.now) }
    ensures refused { IfErr result (λ e. e ≡ Refusal.Memory) }
{
    match width {
        Width::Byte => pack_bytes(alloc, bytes),
        Width::Word => pack_words(alloc, bytes),
    }
}

// Packs records of a byte each.
fn pack_bytes(alloc: Global, bytes: &[u8]) -> Result<Packed, Refusal>
    ensures records { IfOk result (λ packed. packed ≡ map record_with bytes.now) }
    ensures refused { IfErr result (λ e. e ≡ Refusal.Memory) }
{
    match Packed::of_short(alloc, bytes) {
        Ok(packed) => Ok(packed),
        Err(_refused) => Err(Refusal::Memory),
    }
}

// Packs records of four bytes each. A rest of fewer bytes is left out.
fn pack_words(alloc: Global, bytes: &[u8]) -> Result<Packed, Refusal>
    ensures records { IfOk result (λ packed. packed ≡ map unpacked_spec (words_of bytes.now)) }
    ensures refused { IfErr result (λ e. e ≡ Refusal.Memory) }
{
    let Ok(mut packed) = Packed::with_capacity(alloc, bytes.len() / 4) else {
        return Err(Refusal::Memory);
    };
    let mut rest = bytes;
    while rest.len() >= 4 {
        let (word, later) = rest.split_at(4);
        if packed.push(unpacked(number_in(word))).is_err() {
            return Err(Refusal::Memory);
        }
        rest = later;
    }
    Ok(packed)
}

// Returns the number that four bytes stand for, the lowest first.
fn number_in(word: &[u8]) -> u32
    requires { length word.now ≡ 4 }
    ensures { words_of word.now ≡ result ∷ [] }
{
    u32::from(word[0])
        + 256 * u32::from(word[1])
        + 65_536 * u32::from(word[2])
        + 16_777_216 * u32::from(word[3])
}

/// Lists the records that bytes stand for.
pub fn list(alloc: Global, width: Width, bytes: &[u8]) -> Result<Vec<Option<Solved>>, Refusal>
    ensures records { IfOk result (λ v. v.items ≡ records_of width bytes.now) }
    ensures refused { IfErr result (λ e. e ≡ Refusal.Memory) }
{
    let packed = pack(alloc, width, bytes)?;
    let records = packed.to_vec(alloc);
    drop(packed);
    match records {
        Ok(records) => Ok(records),
        Err(_refused) => Err(Refusal::Memory),
    }
}

/// Adds the bytes of the records of a table at the end.
pub fn add<G: Game>(width: Width, bytes: &mut Vec<u8>, table: &Table<G>) -> Result<(), Refusal>
    ensures added { OnOk result ((more : List ℕ) × (bytes.new.items ≡ bytes.old.items ++ more) × Stand width more table.now.records) }
    ensures refused { IfErr result (IsUnadded width table.now.records) }
{
    match width {
        Width::Byte => add_bytes(bytes, table),
        Width::Word => add_words(bytes, table),
    }
}

// Adds records of a byte each.
fn add_bytes<G: Game>(bytes: &mut Vec<u8>, table: &Table<G>) -> Result<(), Refusal>
    ensures added { OnOk result ((more : List ℕ) × (bytes.new.items ≡ bytes.old.items ++ more) × (map record_with more ≡ table.now.records)) }
    ensures refused { IfErr result (IsUnadded Width.Byte table.now.records) }
{
    for index in 0..table.size() {
        let Some(byte) = short_of(number_of(table.at(index))) else {
            return Err(Refusal::TooFar);
        };
        if bytes.push(byte).is_err() {
            return Err(Refusal::Memory);
        }
    }
    Ok(())
}

// Adds records of four bytes each.
fn add_words<G: Game>(bytes: &mut Vec<u8>, table: &Table<G>) -> Result<(), Refusal>
    ensures added { OnOk result ((more : List ℕ) × (bytes.new.items ≡ bytes.old.items ++ more) × Stand Width.Word more table.now.records) }
    ensures refused { IfErr result (λ e. e ≡ Refusal.Memory) }
{
    for index in 0..table.size() {
        let word = word_of(number_of(table.at(index)));
        if bytes.extend_from_slice(&word).is_err() {
            return Err(Refusal::Memory);
        }
    }
    Ok(())
}

// Returns the four bytes of a number, the lowest first.
fn word_of(number: u32) -> [u8; 4]
    ensures value { words_of result ≡ number ∷ [] }
    ensures long { length result ≡ 4 }
{
    [
        (number % 256) as u8,
        (number / 256 % 256) as u8,
        (number / 65_536 % 256) as u8,
        (number / 16_777_216) as u8,
    ]
}
