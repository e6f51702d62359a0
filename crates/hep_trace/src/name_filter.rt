//! Whether a variable has a name.
ghost use Rattle.std.specs.Prelude.{◌≡◌, ◌||◌, slice_get};
ghost use Rattle.std.specs.Option.{option_map};
ghost use Rattle.std.specs.Str.{bytes_eq};
ghost use Rattle.hep_image.specs.Names.{names_in_order};
ghost use Rattle.hep_trace.specs.References.{declared_by};
ghost use Rattle.hep_state_text.specs.WaitTexts.{name_seen};
ghost use Rattle.hep_event.specs.AccessedNames.{is_name};

use hep_event::Site;
use hep_image::Image;

/// The name with this number.
pub(crate) fn name_with(image: &Image, number: u32) -> &[u8]
    ensures { result.now ≡ name_seen (slice_get (names_in_order image.now) number) }
{
    match image.name(number) {
        Some(name) => name,
        None => b"",
    }
}

// The declared name of the variable with this storage unit. `None` in COMMON, or where there is no site.
fn declared_name(image: &Image, site: Option<Site>) -> Option<&[u8]>
    ensures { option_map (λ name. name.now) result ≡ declared_by (names_in_order image.now) site }
{
    let site = site?;
    if site.place.owner == 0 {
        return None;
    }
    Some(name_with(image, site.place.name))
}

/// Whether a variable or an element has a name: in the unit, where its name has this number, or where its storage
/// unit is declared.
pub fn goes_by(image: &Image, number: u32, site: Option<Site>, name: &[u8]) -> bool
    ensures { result ≡ (bytes_eq name.now (name_seen (slice_get (names_in_order image.now) number))
        || is_name name.now (declared_by (names_in_order image.now) site)) }
{
    if name == name_with(image, number) {
        return true;
    }
    match declared_name(image, site) {
        Some(declared) => name == declared,
        None => false,
    }
}
