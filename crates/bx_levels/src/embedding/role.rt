//! The role of each class in the rules for explicit levels: which of X2 to X9 is for it.
ghost use Rattle.std.specs.Prelude.{◌≡◌};
ghost use Rattle.bx_levels.specs.embedding.Explicit.{role_of};

use bx_ucd::Class;

/// The role of a character in the rules, in the order of X2 to X9. A role has the name of its class.
#[derive(Clone, Copy)]
pub enum Role {
    Rle,
    Lre,
    Rlo,
    Lro,
    Rli,
    Lri,
    Fsi,
    Other,
    Pdi,
    Pdf,
    Bn,
}

/// The role of a class; `Other` for every class without a rule of its own.
pub fn role_of(class: Class) -> Role
    ensures { result ≡ role_of class }
{
    match class {
        Class::LRE => Role::Lre,
        Class::RLE => Role::Rle,
        Class::LRO => Role::Lro,
        Class::RLO => Role::Rlo,
        Class::LRI => Role::Lri,
        Class::RLI => Role::Rli,
        Class::FSI => Role::Fsi,
        Class::PDI => Role::Pdi,
        Class::PDF => Role::Pdf,
        Class::BN => Role::Bn,
        _ => Role::Other,
    }
}
