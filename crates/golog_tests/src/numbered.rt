// Tests of `Nodes` and `Places`.
use crate::asserting::same;
use golog_base::{Boxed, NoMemory};
use golog_memo::{Nodes, Places};
use golog_tree::{Prog, is_same_prog};
use std::alloc::Global;

/// The iteration of the empty program.
fn star(alloc: Global) -> Result<Prog, NoMemory> {
    Ok(Prog::Star(Boxed::new(alloc, Prog::Nil)?))
}

/// Whether equal programs have one number, others another, and the last number is that of its program.
#[tactic(auto, using(std::proofs::lemmas::Option::slice_get_within))]
fn are_numbered(nodes: &mut Nodes, star: &Prog) -> Result<bool, NoMemory> {
    let nil = nodes.number(&Prog::Nil)?;
    let one = nodes.number(star)?;
    let same_nil = nodes.number(&Prog::Nil)? == nil;
    let again = nodes.number(star)?;
    let is_star = is_same_prog(nodes.prog(again), star);
    Ok(same_nil && again == one && nil != one && is_star)
}

/// The same, where no program has a number yet.
fn are_numbered_anew(alloc: Global, star: &Prog) -> Result<bool, NoMemory> {
    match Nodes::new(alloc) {
        Ok(mut nodes) => {
            let answer = are_numbered(&mut nodes, star);
            drop(nodes);
            answer
        }
        Err(NoMemory) => Err(NoMemory),
    }
}

/// The same of the empty program and its iteration.
fn has_numbers(alloc: Global) -> Result<bool, NoMemory> {
    let made = star(alloc);
    let answer = match &made {
        Ok(star) => are_numbered_anew(alloc, star),
        Err(NoMemory) => Err(NoMemory),
    };
    drop(made);
    answer
}

#[test]
fn programs_have_numbers(rt: HostRuntime) {
    same(&rt, "numbers", has_numbers(rt.alloc()).ok(), Some(true));
}

/// The place of the word, among those of one hash of three that stand at places.
fn place_of(places: &Places, word: u8) -> Option<usize> {
    let words = [7, 8, 9];
    places.find(5, |place| words.get(place) == Some(&word))
}

/// Where the three words are found by the hash that the first two have.
fn places_of(alloc: Global) -> Result<[Option<usize>; 3], NoMemory> {
    let mut places = Places::new(alloc);
    places.add(5, 0)?;
    places.add(5, 1)?;
    places.add(6, 2)?;
    Ok([
        place_of(&places, 7),
        place_of(&places, 8),
        place_of(&places, 9),
    ])
}

#[test]
fn places_are_found_by_their_hashes(rt: HostRuntime) {
    let found = places_of(rt.alloc()).ok();
    same(&rt, "places", found, Some([Some(0), Some(1), None]));
}
