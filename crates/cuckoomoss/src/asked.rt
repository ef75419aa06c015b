// What the program's arguments ask for.
use spelling::same;
use std::env::{Env, FillError};

// The report alone; the report with evidence; or something that is not known here.
#[derive(Clone, Copy)]
pub(crate) enum Wanted {
    Report,
    Evidence,
    Other,
}

// Is there no argument of this place? Of one that is there no byte is taken.
fn is_past(env: &impl Env, place: usize) -> bool {
    let got = env.arg(place, &mut []);
    matches!(got, Err(FillError::NotPresent))
}

// There is no argument, or just one, and that is the option. Of one that is longer than the option no byte is taken.
pub(crate) fn asked(env: &impl Env) -> Wanted {
    if is_past(env, 1) {
        return Wanted::Report;
    }
    let mut word = [0u8; 10];
    let Ok(n) = env.arg(1, &mut word) else {
        return Wanted::Other;
    };
    if is_past(env, 2) && same(&word[..n], b"--evidence") {
        return Wanted::Evidence;
    }
    Wanted::Other
}
