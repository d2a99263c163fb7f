// Answers stored files, each by a new book: over a movement list of P places where the name begins with
// few-places-P-, else over balances.

#![tactic(auto)]

use answering::Answering;
use ledger::{ACCOUNTS, Balances, Ledger, Movement, Movements};
use registry::{Book, ENTITIES, OFFERS};
use rules::{Account, Entity, Offer};
use std::io::Write;
use std::{env, fs, io};

// The most places of a movement list here.
const PLACES: usize = 4_096;

// Writes the answers to a whole input, from a new book over the ledger.
fn answer_all<L: Ledger + Drop>(rt: &HostRuntime, ledger: L, input: &[u8]) -> io::Result<()> {
    let mut accounts = [Account::EMPTY; ACCOUNTS as usize];
    let mut entities = [Entity::EMPTY; ENTITIES];
    let mut offers = [Offer::EMPTY; OFFERS];
    let book = Book::new(&mut accounts, &mut entities, &mut offers);
    let mut answering = Answering::new(book, ledger, rt.stdout());
    answering.write_all(input)?;
    answering.finish()
}

// The places of a movement list that a file's name asks for.
fn places_asked(name: &str) -> Option<usize> {
    let rest = name.strip_prefix("few-places-")?;
    let (count, _) = rest.split_once('-')?;
    count.parse().ok()
}

fn answer_file(rt: &HostRuntime, name: &str) -> anyhow::Result<()> {
    let input = fs::read(rt, name)?;
    match places_asked(name) {
        Some(asked) => {
            let mut places = [Movement::EMPTY; PLACES];
            let count = asked.min(PLACES);
            let ledger = Movements::new(&mut places[0..count]);
            answer_all(rt, ledger, input.as_slice())?;
        }
        None => answer_all(rt, Balances::new(), input.as_slice())?,
    }
    Ok(())
}

fn main(rt: HostRuntime) -> anyhow::Result<()> {
    for name in env::args(&rt)?.skip(1) {
        answer_file(&rt, name.as_str())?;
    }
    Ok(())
}
