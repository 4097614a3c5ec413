//! A text that a store in memory keeps where its saves no longer go.
ghost use Rattle.std.specs.Prelude.{◌≡◌, find, option_map, string_bytes};
ghost use Rattle.std.specs.List.{list_any};
ghost use Rattle.bx_store.specs.Kept.{kept_of};
ghost use Rattle.bx_store.specs.Stores as spec;

/// A text, and its name.
#[derive(Drop)]
pub struct Kept {
    /// None of what was saved under no name.
    pub name: Option<String>,
    pub text: Vec<u8>,
}

/// Whether a place has this name.
pub fn has_name(name: &str, place: &Option<String>) -> bool
    ensures { result ≡ spec.has_name name.now (option_map string_bytes place.now) }
{
    match place {
        Some(other) => other.as_str() == name,
        None => false,
    }
}

/// Whether a place has this name, or none if `name` is None.
pub fn is_at(name: Option<&str>, place: &Option<String>) -> bool
    ensures { result ≡ spec.is_at (option_map (λ n. n.now) name.entry) (option_map string_bytes place.now) }
{
    match name {
        Some(name) => has_name(name, place),
        None => place.is_none(),
    }
}

/// Whether one of these texts has this name.
pub fn is_among(name: &str, kept: &[Kept]) -> bool
    ensures { result ≡ list_any (λ k. spec.has_name name.now (kept_of k).name) kept.now }
{
    kept.iter().any(|text| has_name(name, &text.name))
}

/// The first of these texts at a place.
pub fn text_at<'a>(name: Option<&str>, kept: &'a [Kept]) -> Option<&'a [u8]>
    ensures { option_map (λ t. t.now) result ≡ option_map (λ k. (kept_of k).text)
        (find (λ k. spec.is_at (option_map (λ n. n.now) name.entry) (kept_of k).name) kept.now) }
{
    kept.iter()
        .find(|text| is_at(name, &text.name))
        .map(|text| text.text.as_slice())
}
