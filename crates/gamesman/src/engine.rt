//! The engine, for a browser that solves the games itself, and the page of all games with it.
ghost use Rattle.std.specs.Prelude.{◌≡◌, [], IfOk, IfErr, OnOk};
ghost use Rattle.gm_page.specs.Engines.{AreDigits};
ghost use Rattle.gamesman.specs.Engines.{IsEngineFault, IsEveryGame, games_page};

use crate::every_game::push_games;
use crate::fault::Fault;
use crate::output::put_text;
use gm_page::engine::engine_in;
use gm_page::page::{push_back, push_front};
use gm_tierdb::store_error::StoreError;
use gm_tierdb::streams::read_text;
use std::alloc::{AllocError, Global};
use std::fs::{self, Files};
use std::io::Write;

/// The greatest length of the file with the engine, in bytes.
pub const ENGINE_LEN: u64 = 4_194_304;

// Reads the file with the engine, an ordinary file that is not too long.
fn read_file<R: Files + AllocGlobal>(rt: &R, path: &str) -> Result<Vec<u8>, Fault>
    ensures { IfErr result IsEngineFault }
{
    match fs::metadata(rt, path) {
        Ok(metadata) if metadata.is_file() && metadata.len() <= ENGINE_LEN => {}
        Ok(metadata) if metadata.is_file() => return Err(Fault::NotAnEngine),
        _ => return Err(Fault::EngineNotRead),
    }
    let Ok(mut file) = fs::open(rt, path) else {
        return Err(Fault::EngineNotRead);
    };
    match read_text(rt.alloc(), &mut file) {
        Ok(text) => Ok(text),
        Err(StoreError::OutOfMemory) => Err(Fault::OutOfMemory(AllocError)),
        Err(StoreError::Failed) => Err(Fault::EngineNotRead),
    }
}

/// Returns the digits of the engine in this file.
pub fn read_engine<R: Files + AllocGlobal>(rt: &R, path: &str) -> Result<Vec<u8>, Fault>
    ensures digits { IfOk result (λ v. AreDigits v.items) }
    ensures fault { IfErr result IsEngineFault }
{
    let mut text = read_file(rt, path)?;
    let length = match engine_in(text.as_slice()) {
        Some(digits) => digits.len(),
        None => return Err(Fault::NotAnEngine),
    };
    text.truncate(length);
    Ok(text)
}

/// Writes the page of all games with the engine in this file.
pub fn page_of_games<R: Files + AllocGlobal, O: Write>(
    rt: &R,
    engine: &str,
    output: &mut O,
) -> Result<u8, Fault>
    ensures { IsEveryGame (O.contents output.old) (O.contents output.new) result }
{
    let digits = read_engine(rt, engine)?;
    let page = games_text(rt.alloc(), digits.as_slice());
    put_text(output, page)
}

// Returns the page of all games with this engine.
fn games_text(alloc: Global, digits: &[u8]) -> Result<Vec<u8>, AllocError>
    ensures { IfOk result (λ v. v.items ≡ games_page digits.now) }
{
    let mut page = Vec::new(alloc);
    match push_games_page(alloc, digits, &mut page) {
        Ok(()) => Ok(page),
        Err(error) => {
            drop(page);
            Err(error)
        }
    }
}

// Writes the page of all games into an empty text.
fn push_games_page(alloc: Global, digits: &[u8], page: &mut Vec<u8>) -> Result<(), AllocError>
    requires { page.old.items ≡ [] }
    ensures { OnOk result (page.new.items ≡ games_page digits.now) }
{
    push_front(page)?;
    push_games(alloc, page)?;
    push_back(page, digits)
}
