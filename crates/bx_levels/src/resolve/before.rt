//! The step of W1 to W7 in one pass (`one_pass.rt`): what the types before a character decide for it, and the type that it becomes.
//! `after_wN` is a type after rule WN; `third` and `fourth` are the type after W3 and W4.
ghost use Rattle.std.specs.Prelude.{◌≡◌, List, true};
ghost use Rattle.bx_ucd.specs.declared.class.Class.{Class};
ghost use Rattle.bx_levels.specs.resolve.Weak.{beside, is_en_past, w3_at};
ghost use Rattle.bx_levels.specs.resolve.Turns.{after_w1, after_w2, after_w4, after_w7, begin, decided, is_separator, is_settled, nsm_class_next, neighbour_of, next};
ghost use Rattle.bx_levels.specs.resolve.Turns.{next_fourth, next_third, number_by, rest_after_w3, strong_next, strong_of, terminator_by, thirds};
ghost use Rattle.bx_levels.specs.resolve.Turns.{written, written_fourth, written_third};

use crate::resolve::weak::nsm_class_after;
use bx_ucd::Class;

/// The nearest strong type before a character (W2, W7): L, R or AL.
#[derive(Clone, Copy)]
pub enum Strong {
    Left,
    Right,
    Arabic,
}

/// The type after W3 just before a character, as far as a separator asks for it (W4): EN, AN or any other.
#[derive(Clone, Copy)]
pub enum Neighbour {
    EuropeanNumber,
    ArabicNumber,
    Other,
}

/// What the ET of a run become, the run at a character or directly behind it (W5, W6).
#[derive(Clone, Copy)]
pub enum Terminators {
    /// EN: one is beside the run.
    Numbers,
    /// ON: no EN is beside the run.
    Neutrals,
    /// No EN is before the run, and what follows it is still to be read.
    Undecided,
}

/// The state before a character: what the types before it decide for it.
#[derive(Clone, Copy)]
pub struct Before {
    /// The type that an NSM takes (W1).
    nsm_class: Class,
    strong: Strong,
    neighbour: Neighbour,
    terminators: Terminators,
}

/// Whether W1 to W7 keep a type in any context.
pub fn is_settled(t: Class) -> bool
    ensures { result ≡ is_settled t }
{
    match t {
        Class::L | Class::R => true,
        Class::B | Class::S | Class::WS | Class::ON => true,
        _ => false,
    }
}

/// A sequence's `sos` as a strong type.
fn strong_of(sos: Class) -> Strong
    ensures { result ≡ strong_of sos }
{
    match sos {
        Class::L => Strong::Left,
        Class::AL => Strong::Arabic,
        _ => Strong::Right,
    }
}

/// The nearest strong type before the character behind `t`; `strong` is the nearest one before `t`.
fn strong_next(strong: Strong, t: Class) -> Strong
    ensures { result ≡ strong_next strong t }
{
    match t {
        Class::L => Strong::Left,
        Class::R => Strong::Right,
        Class::AL => Strong::Arabic,
        _ => strong,
    }
}

/// The type after W1, where an NSM takes the type `nsm_class`.
fn after_w1(nsm_class: Class, t: Class) -> Class
    ensures { result ≡ after_w1 nsm_class t }
{
    match t {
        Class::NSM => nsm_class,
        _ => t,
    }
}

/// The type that an NSM after `t` takes; at `t` it would take `nsm_class`.
fn nsm_class_next(nsm_class: Class, t: Class) -> Class
    ensures { result ≡ nsm_class_next nsm_class t }
{
    match t {
        Class::NSM => nsm_class,
        _ => nsm_class_after(t),
    }
}

/// The type of an EN after W2.
fn number_by(strong: Strong) -> Class
    ensures { result ≡ number_by strong }
{
    match strong {
        Strong::Arabic => Class::AN,
        Strong::Left | Strong::Right => Class::EN,
    }
}

/// The type after W2, where `strong` is the nearest strong type before it.
fn after_w2(strong: Strong, t: Class) -> Class
    ensures { result ≡ after_w2 strong t }
{
    match t {
        Class::EN => number_by(strong),
        _ => t,
    }
}

/// The type after W3.
fn after_w3(t: Class) -> Class
    ensures { result ≡ w3_at t }
{
    match t {
        Class::AL => Class::R,
        _ => t,
    }
}

/// What a type after W3 is to a separator behind it.
fn neighbour_of(t: Class) -> Neighbour
    ensures { result ≡ neighbour_of t }
{
    match t {
        Class::EN => Neighbour::EuropeanNumber,
        Class::AN => Neighbour::ArabicNumber,
        _ => Neighbour::Other,
    }
}

/// Whether W4 may change a type.
fn is_separator(t: Class) -> bool
    ensures { result ≡ is_separator t }
{
    match t {
        Class::ES | Class::CS => true,
        _ => false,
    }
}

/// The type after W3 of the first of the types `rest`, which no rule has changed yet, or ON at the end. `nsm_class` and `strong` are
/// those of the state before it.
fn beside_ahead(nsm_class: Class, strong: Strong, rest: &[Class]) -> Class
    ensures { result ≡ beside (rest_after_w3 nsm_class strong rest.now) }
{
    match rest {
        [] => Class::ON,
        [t, ..] => after_w3(after_w2(strong, after_w1(nsm_class, *t))),
    }
}

/// The type after W4 of a type after W3. Only a separator behind a number looks ahead, into `rest`, before which the state has
/// `nsm_class` and `strong`.
fn after_w4(
    t: Class,
    neighbour: Neighbour,
    nsm_class: Class,
    strong: Strong,
    rest: &[Class],
) -> Class
    ensures { result ≡ after_w4 t neighbour (beside (rest_after_w3 nsm_class strong rest.now)) }
{
    match (t, neighbour) {
        (Class::ES | Class::CS, Neighbour::EuropeanNumber) => {
            match beside_ahead(nsm_class, strong, rest) {
                Class::EN => Class::EN,
                _ => t,
            }
        }
        (Class::CS, Neighbour::ArabicNumber) => match beside_ahead(nsm_class, strong, rest) {
            Class::AN => Class::AN,
            _ => t,
        },
        _ => t,
    }
}

/// Whether the first of `types` that is not ET after W3 is EN after W3. `nsm_class` and `strong` are those of the state before
/// `types`; `strong` stays the same over the run, since no type before that one is strong.
#[tactic(auto, using(crate::proofs::resolve_lemmas::Fused::past_et, crate::proofs::resolve_lemmas::Fused::past_other, crate::proofs::resolve_lemmas::Fused::past_end))]
fn is_en_ahead(nsm_class: Class, strong: Strong, types: &[Class]) -> bool
    ensures { result ≡ is_en_past (rest_after_w3 nsm_class strong types.now) }
{
    let mut nsm_class = nsm_class;
    for t in types {
        let third = after_w3(after_w2(strong, after_w1(nsm_class, *t)));
        if third != Class::ET {
            return third == Class::EN;
        }
        nsm_class = nsm_class_next(nsm_class, *t);
    }
    false
}

/// What the ET of a run become. Only where that is undecided are the types behind (`rest`) looked at.
fn decided(
    terminators: Terminators,
    nsm_class: Class,
    strong: Strong,
    rest: &[Class],
) -> Terminators
    ensures { result ≡ decided terminators (is_en_past (rest_after_w3 nsm_class strong rest.now)) }
{
    match terminators {
        Terminators::Numbers | Terminators::Neutrals => terminators,
        Terminators::Undecided => {
            if is_en_ahead(nsm_class, strong, rest) {
                Terminators::Numbers
            } else {
                Terminators::Neutrals
            }
        }
    }
}

/// The type of an ET after W5 and W6.
fn terminator_by(terminators: Terminators) -> Class
    ensures { result ≡ terminator_by terminators }
{
    match terminators {
        Terminators::Numbers => Class::EN,
        Terminators::Neutrals | Terminators::Undecided => Class::ON,
    }
}

/// The type after W7, where `strong` is the nearest strong type before it.
fn after_w7(strong: Strong, t: Class) -> Class
    ensures { result ≡ after_w7 strong t }
{
    match (t, strong) {
        (Class::EN, Strong::Left) => Class::L,
        _ => t,
    }
}

impl Before {
    /// The state before the first character, where `sos` counts as the type before it.
    pub fn new(sos: Class) -> Self
        ensures { result ≡ begin sos }
    {
        Before {
            nsm_class: sos,
            strong: strong_of(sos),
            neighbour: Neighbour::Other,
            terminators: Terminators::Undecided,
        }
    }

    /// Takes a settled type, which stays as it is, whatever follows it.
    #[inline(always)]
    pub fn pass(&mut self, t: Class)
        requires { is_settled t ≡ true }
        ensures { (rest : List Class) → self.new ≡ next self.old t rest }
    {
        self.nsm_class = t;
        self.strong = strong_next(self.strong, t);
        self.neighbour = Neighbour::Other;
        self.terminators = Terminators::Undecided;
    }

    /// Takes a type after W4, with `rest` behind it, where `nsm_class` and `strong` are already those of the next step. Returns the type
    /// after W7.
    #[inline(always)]
    fn take_fourth(&mut self, t: Class, rest: &[Class]) -> Class
        ensures written { result ≡ written_fourth self.old t (thirds self.old rest.now) }
        ensures next { self.new ≡ next_fourth self.old t (thirds self.old rest.now) }
    {
        match t {
            Class::ET => {
                self.terminators = decided(self.terminators, self.nsm_class, self.strong, rest);
                after_w7(self.strong, terminator_by(self.terminators))
            }
            Class::EN => {
                self.terminators = Terminators::Numbers;
                after_w7(self.strong, Class::EN)
            }
            Class::ES | Class::CS => {
                self.terminators = Terminators::Undecided;
                Class::ON
            }
            _ => {
                self.terminators = Terminators::Undecided;
                t
            }
        }
    }

    /// Takes a type after W3, with `rest` behind it, where `nsm_class` and `strong` are already those of the next step. Returns the type
    /// after W7.
    #[inline(always)]
    fn take_separator(&mut self, t: Class, rest: &[Class]) -> Class
        ensures written { result ≡ written_third self.old t (thirds self.old rest.now) }
        ensures next { self.new ≡ next_third self.old t (thirds self.old rest.now) }
    {
        let fourth = after_w4(t, self.neighbour, self.nsm_class, self.strong, rest);
        self.neighbour = neighbour_of(t);
        self.take_fourth(fourth, rest)
    }

    /// `take_separator`, with a shorter way for types that are not separators.
    #[inline(always)]
    fn take_third(&mut self, t: Class, rest: &[Class]) -> Class
        ensures written { result ≡ written_third self.old t (thirds self.old rest.now) }
        ensures next { self.new ≡ next_third self.old t (thirds self.old rest.now) }
    {
        if is_separator(t) {
            return self.take_separator(t, rest);
        }
        self.neighbour = neighbour_of(t);
        self.take_fourth(t, rest)
    }

    /// Takes the next type, with the types `rest` behind it, none of them changed by a rule yet. Returns the type after W7.
    #[inline(always)]
    pub fn take(&mut self, t: Class, rest: &[Class]) -> Class
        ensures written { result ≡ written self.old t rest.now }
        ensures next { self.new ≡ next self.old t rest.now }
    {
        let first = after_w1(self.nsm_class, t);
        let third = after_w3(after_w2(self.strong, first));
        self.nsm_class = nsm_class_next(self.nsm_class, t);
        self.strong = strong_next(self.strong, first);
        self.take_third(third, rest)
    }
}
