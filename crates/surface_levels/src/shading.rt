// The five levels beside the colour, and the tags that name them.
ghost use Rattle.std.specs.Prelude.{◌≡◌, eqb};
ghost use Rattle.std.specs.List.{find};
ghost use Rattle.std.specs.Option.{option_map};
ghost use Rattle.surface_levels.specs.Promises.{short_tag, long_tag, NamedBy};

use format::tags::{DIFF, LUMI, REFL, SPEC, TRAN, VDIF, VLUM, VRFL, VSPC, VTRN};

#[derive(Clone, Copy, Debug, PartialEq, Eq)]
pub enum Shading {
    Luminosity,
    Diffuse,
    Specular,
    Reflection,
    Transparency,
}

// The tags of LWO2's levels, which are those of LWOB's short forms.
const SHORT: [(u32, Shading); 5] = [
    (LUMI, Shading::Luminosity),
    (DIFF, Shading::Diffuse),
    (SPEC, Shading::Specular),
    (REFL, Shading::Reflection),
    (TRAN, Shading::Transparency),
];

// The tags of LWOB's float forms.
const LONG: [(u32, Shading); 5] = [
    (VLUM, Shading::Luminosity),
    (VDIF, Shading::Diffuse),
    (VSPC, Shading::Specular),
    (VRFL, Shading::Reflection),
    (VTRN, Shading::Transparency),
];

// The level that stands beside a tag in a table, the first if there are more.
fn named_among(table: &[(u32, Shading)], tag: u32) -> Option<Shading>
    ensures { result ≡ option_map (λ e. e.1) (find (λ e. eqb e.0 tag) table.now) }
{
    let (_, level) = table.iter().find(|e| e.0 == tag)?;
    Some(*level)
}

// The level that a tag of LWO2 names, or of one of LWOB's short forms.
pub fn level_named(tag: u32) -> Option<Shading>
    ensures { NamedBy short_tag tag result }
{
    named_among(&SHORT, tag)
}

// The level that a tag of LWOB's float forms names.
pub fn long_level_named(tag: u32) -> Option<Shading>
    ensures { NamedBy long_tag tag result }
{
    named_among(&LONG, tag)
}
