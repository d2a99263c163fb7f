// Answers each line of standard input by a line on standard output, over the ledger of balances.

#![tactic(auto)]

use answering::Answering;
use ledger::{ACCOUNTS, Balances};
use registry::{Book, ENTITIES, OFFERS};
use rules::{Account, Entity, Offer};
use std::io;
use std::io::{ErrorKind, Read, Stdout, Write};

// Bytes read at a time. Not by `io::copy`, which takes 8,192: a pipe holds as many as these, and whoever
// writes all lines before it reads an answer would wait for ever that much sooner.
const BLOCK: usize = 65_536;

// Answers a block of the input. Not inlined: within the loop over blocks a long line takes half as long again.
#[inline(never)]
fn answer(answering: &mut Answering<'_, Balances, Stdout>, block: &[u8]) -> io::Result<()> {
    answering.write_all(block)
}

fn main(rt: HostRuntime) -> io::Result<()> {
    let mut accounts = [Account::EMPTY; ACCOUNTS as usize];
    let mut entities = [Entity::EMPTY; ENTITIES];
    let mut offers = [Offer::EMPTY; OFFERS];
    let book = Book::new(&mut accounts, &mut entities, &mut offers);
    let mut answering = Answering::new(book, Balances::new(), rt.stdout());
    let mut input = rt.stdin();
    let mut block = [0; BLOCK];
    for _ in 0..u64::MAX {
        match input.read(&mut block) {
            Ok(0) => break,
            Ok(count) => answer(&mut answering, &block[..count])?,
            // A signal came: nothing was read.
            Err(error) if error.kind() == ErrorKind::Interrupted => {}
            Err(error) => return Err(error),
        }
    }
    answering.finish()
}
