//! The rules for weak types (W1 to W7), each as a pass over a sequence, for `levels_by_rules`. The editor runs `one_pass.rt`.
ghost use Rattle.std.specs.Prelude.{◌≡◌, IfOk, map};
ghost use Rattle.bx_levels.specs.resolve.Weak.{is_en_past, left_number, nsm_class_after, number_after, separator, terminator_of, w1, w2, w3, w4, w5, w6, w7};
ghost use Rattle.bx_ucd.specs.Class.{is_nsm};

use bx_ucd::Class;
use std::alloc::{AllocError, Global};

/// The type of an NSM after a character of type `t` (W1).
pub fn nsm_class_after(t: Class) -> Class
    ensures { result ≡ nsm_class_after t }
{
    match t {
        Class::LRI | Class::RLI | Class::FSI | Class::PDI => Class::ON,
        _ => t,
    }
}

/// The type of an EN after the nearest strong type (W2).
fn number_after(strong: Class) -> Class
    ensures { result ≡ number_after strong }
{
    match strong {
        Class::AL => Class::AN,
        _ => Class::EN,
    }
}

/// The type of a character between two others (W4).
fn separator(before: Class, t: Class, after: Class) -> Class
    ensures { result ≡ separator before t after }
{
    match (t, before, after) {
        (Class::ES | Class::CS, Class::EN, Class::EN) => Class::EN,
        (Class::CS, Class::AN, Class::AN) => Class::AN,
        _ => t,
    }
}

/// Whether the first type other than ET is EN; false if there is none.
fn is_en_past(types: &[Class]) -> bool
    ensures { result ≡ is_en_past types.now }
{
    for t in types {
        match *t {
            Class::ET => {}
            Class::EN => return true,
            _ => return false,
        }
    }
    false
}

/// Of each type, whether it is NSM.
pub fn nsms(alloc: Global, types: &[Class]) -> Result<Vec<bool>, AllocError>
    ensures { IfOk result (λ v. v.items ≡ map is_nsm types.now) }
{
    types
        .iter()
        .map(|t| matches!(*t, Class::NSM))
        .collect(alloc)
}

/// W1: an NSM takes the type of the character before it, or ON after an isolate initiator or PDI.
#[tactic(auto, using(crate::proofs::resolve_lemmas::Run::run_write, crate::proofs::resolve_lemmas::Run::run_keep, crate::proofs::resolve_lemmas::Run::w1_run))]
pub fn w1(types: &mut [Class], sos: Class)
    ensures { types.new ≡ w1 sos types.old }
{
    let mut nsm_class = sos;
    for t in types.iter_mut() {
        if *t == Class::NSM {
            *t = nsm_class;
        } else {
            nsm_class = nsm_class_after(*t);
        }
    }
}

/// W2: an EN whose nearest strong type before it is AL becomes AN.
#[tactic(auto, using(crate::proofs::resolve_lemmas::Run::run_write, crate::proofs::resolve_lemmas::Run::run_keep, crate::proofs::resolve_lemmas::Run::w2_run))]
pub fn w2(types: &mut [Class], sos: Class)
    ensures { types.new ≡ w2 sos types.old }
{
    let mut strong = sos;
    for t in types.iter_mut() {
        match *t {
            Class::EN => *t = number_after(strong),
            Class::L | Class::R | Class::AL => strong = *t,
            _ => {}
        }
    }
}

/// W3: AL becomes R.
pub fn w3(types: &mut [Class])
    ensures { types.new ≡ w3 types.old }
{
    for t in types.iter_mut() {
        if *t == Class::AL {
            *t = Class::R;
        }
    }
}

/// W4: a single separator between two numbers of the same type takes their type.
#[tactic(auto, using(crate::proofs::resolve_lemmas::Run::run_write, crate::proofs::resolve_lemmas::Run::run_keep, crate::proofs::resolve_lemmas::Run::w4_run))]
pub fn w4(types: &mut [Class])
    ensures { types.new ≡ w4 types.old }
{
    let mut before = Class::ON;
    for i in 0..types.len() {
        let t = types[i];
        let after = if i + 1 < types.len() {
            types[i + 1]
        } else {
            Class::ON
        };
        types[i] = separator(before, t, after);
        before = t;
    }
}

/// The type of an ET, given whether an EN is before or after its run (W5).
fn terminator_of(before: bool, after: bool) -> Class
    ensures { result ≡ terminator_of before after }
{
    if before || after {
        Class::EN
    } else {
        Class::ET
    }
}

/// The type of an EN after the nearest L or R (W7).
fn left_number(strong: Class) -> Class
    ensures { result ≡ left_number strong }
{
    match strong {
        Class::L => Class::L,
        _ => Class::EN,
    }
}

/// W5: a run of ET beside an EN becomes EN.
#[tactic(auto, using(crate::proofs::resolve_lemmas::Run::run_write, crate::proofs::resolve_lemmas::Run::run_keep, crate::proofs::resolve_lemmas::Run::w5_run, crate::proofs::resolve_lemmas::Run::past_more))]
pub fn w5(types: &mut [Class])
    ensures { types.new ≡ w5 types.old }
{
    // Whether an EN is before the run of ET, and whether one is behind it, which only the run's first ET looks for.
    let mut before = false;
    let mut known: Option<bool> = None;
    for i in 0..types.len() {
        let t = types[i];
        if t == Class::ET {
            let after = match known {
                Some(after) => after,
                None => is_en_past(&types[i + 1..]),
            };
            known = Some(after);
            types[i] = terminator_of(before, after);
        } else {
            before = t == Class::EN;
            known = None;
        }
    }
}

/// W6: remaining separators and terminators become ON.
pub fn w6(types: &mut [Class])
    ensures { types.new ≡ w6 types.old }
{
    for t in types.iter_mut() {
        match *t {
            Class::ES | Class::ET | Class::CS => *t = Class::ON,
            _ => {}
        }
    }
}

/// W7: an EN whose nearest strong type before it is L becomes L.
#[tactic(auto, using(crate::proofs::resolve_lemmas::Run::run_write, crate::proofs::resolve_lemmas::Run::run_keep, crate::proofs::resolve_lemmas::Run::w7_run))]
pub fn w7(types: &mut [Class], sos: Class)
    ensures { types.new ≡ w7 sos types.old }
{
    let mut strong = sos;
    for t in types.iter_mut() {
        match *t {
            Class::EN => *t = left_number(strong),
            Class::L | Class::R => strong = *t,
            _ => {}
        }
    }
}
