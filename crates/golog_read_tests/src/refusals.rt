// A test of `lesser` and `least_of`.
use crate::asserting::same;
use golog_rows::{Refusal, least_of, lesser};

/// The code and the place of the lesser of two refusals, whichever comes first.
fn lesser_of(one: (u8, u32), other: (u8, u32)) -> Option<(u8, u32)> {
    let (code, at) = one;
    let first = lesser(None, Refusal { code, at });
    let (code, at) = other;
    let second = lesser(None, Refusal { code, at });
    least_of(first, second).map(|refusal| (refusal.code, refusal.at))
}

#[test]
fn the_least_place_and_there_the_least_code(rt: HostRuntime) {
    let rows: [((u8, u32), (u8, u32), (u8, u32)); 3] = [
        ((38, 4), (30, 5), (38, 4)),
        ((30, 5), (38, 4), (38, 4)),
        ((31, 5), (30, 5), (30, 5)),
    ];
    for (one, other, least) in rows {
        same(&rt, one, lesser_of(one, other), Some(least));
    }
}
