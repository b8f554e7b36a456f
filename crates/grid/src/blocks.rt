// The record of a section 3 and the blocks that it is made of.
ghost use Rattle.std.specs.Prelude.{◌≡◌, drop};
ghost use Rattle.layout.specs.Fields.{after, values_of};
ghost use Rattle.grid.specs.Blocks.{earth_size, earth, common, pole, poles, earth_size_in, earth_in, common_in, pole_in, poles_in, values_in};
ghost use Rattle.grid.specs.Templates.{values₃};

use crate::templates::Template;

// A number of the earth's size, by its scale factor.
#[derive(Clone, Copy, PartialEq, Eq)]
pub struct EarthSize {
    pub factor: Option<u32>,
    pub value: Option<u32>,
}

// Octets 15 to 30.
#[derive(Clone, Copy, PartialEq, Eq)]
pub struct Earth {
    pub shape: u8,
    pub radius: EarthSize,
    pub major_axis: EarthSize,
    pub minor_axis: EarthSize,
}

// Octets 15 to 72, the same in all four templates.
#[derive(Clone, Copy, PartialEq, Eq)]
pub struct Common {
    pub earth: Earth,
    pub ni: Option<u32>,
    pub nj: Option<u32>,
    pub basic_angle: u32,
    pub subdivisions: Option<u32>,
    pub la1: i32,
    pub lo1: i32,
    pub component_flags: u8,
    pub la2: i32,
    pub lo2: i32,
    pub di: Option<u32>,
    pub dj: Option<u32>,
    pub scanning_mode: u8,
}

// The southern pole of projection with the angle of rotation, or the pole of stretching with the stretching factor.
#[derive(Clone, Copy, PartialEq, Eq)]
pub struct Pole {
    pub latitude: i32,
    pub longitude: i32,
    pub angle_or_factor: u32,
}

// What a template has behind octet 72. Where it has both, the pole of projection comes first.
#[derive(Clone, Copy, PartialEq, Eq)]
pub enum Poles {
    None,
    Rotated(Pole),
    Stretched(Pole),
    StretchedAndRotated(Pole, Pole),
}

// Every field once.
#[derive(Clone, Copy, PartialEq, Eq)]
pub struct Grid {
    pub length: u32,
    pub number: u8,
    pub source: u8,
    pub points: u32,
    pub list_width: u8,
    pub interpretation: u8,
    pub template: u16,
    pub common: Common,
    pub poles: Poles,
}

impl Grid {
    // The last octet of each template's base.
    pub const END_3_0: usize = 72;

    pub const END_3_1: usize = 84;

    pub const END_3_2: usize = 84;

    pub const END_3_3: usize = 96;

    // The record of a section that follows its template.
    #[tactic(auto, using(crate::proofs::Reading::values_by_part), unfolding(crate::specs::Blocks::values_in))]
    pub(crate) fn of_section(section: &[u8], template: Template) -> Self
        ensures { values_in result ≡ values₃ template section.now }
    {
        let part = template_part(section);
        Self {
            length: octets::u32_at(section, 1),
            number: octets::u8_at(section, 5),
            source: octets::u8_at(section, 6),
            points: octets::u32_at(section, 7),
            list_width: octets::u8_at(section, 11),
            interpretation: octets::u8_at(section, 12),
            template: octets::u16_at(section, 13),
            common: read_common(part),
            poles: read_poles(part, template),
        }
    }
}

// The section from octet 15 on, which the readers of the template are handed.
fn template_part(section: &[u8]) -> &[u8]
    ensures { result.now ≡ drop 14 section.now }
{
    if section.len() <= 14 {
        return &section[..0];
    }
    &section[14..]
}

// Octets 15 to 72, which are octets 1 to 58 of the part.
#[tactic(auto, using(octets::proofs::Signs::kept32), unfolding(layout::specs::Fields::placed, layout::specs::Fields::values_of, crate::specs::Blocks::earth_size, crate::specs::Blocks::earth, crate::specs::Blocks::counts, crate::specs::Blocks::corners, crate::specs::Blocks::common, crate::specs::Blocks::common_in))]
fn read_common(part: &[u8]) -> Common
    ensures { common_in result ≡ values_of (after 0 common) part.now }
{
    Common {
        earth: read_earth(part),
        ni: layout::or_missing::<u32>(part, 17),
        nj: layout::or_missing::<u32>(part, 21),
        basic_angle: octets::u32_at(part, 25),
        subdivisions: layout::or_missing::<u32>(part, 29),
        la1: octets::signed32_at(part, 33),
        lo1: octets::signed32_at(part, 37),
        component_flags: octets::u8_at(part, 41),
        la2: octets::signed32_at(part, 42),
        lo2: octets::signed32_at(part, 46),
        di: layout::or_missing::<u32>(part, 50),
        dj: layout::or_missing::<u32>(part, 54),
        scanning_mode: octets::u8_at(part, 58),
    }
}

#[tactic(auto, unfolding(layout::specs::Fields::placed, layout::specs::Fields::values_of, crate::specs::Blocks::earth_size, crate::specs::Blocks::earth, crate::specs::Blocks::earth_in))]
fn read_earth(part: &[u8]) -> Earth
    ensures { earth_in result ≡ values_of (after 0 earth) part.now }
{
    Earth {
        shape: octets::u8_at(part, 1),
        radius: read_earth_size(part, 1),
        major_axis: read_earth_size(part, 6),
        minor_axis: read_earth_size(part, 11),
    }
}

#[tactic(auto, unfolding(layout::specs::Fields::placed, layout::specs::Fields::values_of, crate::specs::Blocks::earth_size, crate::specs::Blocks::earth_size_in))]
fn read_earth_size(part: &[u8], end: u32) -> EarthSize
    ensures { earth_size_in result ≡ values_of (after end earth_size) part.now }
{
    let before = end as usize;
    EarthSize {
        factor: layout::or_missing::<u8>(part, before + 1),
        value: layout::or_missing::<u32>(part, before + 2),
    }
}

// Octets 73 to the end of the base, which follow octet 58 of the part.
#[tactic(auto, unfolding(layout::specs::Fields::placed, layout::specs::Fields::values_of, crate::specs::Blocks::pole, crate::specs::Blocks::poles, crate::specs::Blocks::poles_in))]
fn read_poles(part: &[u8], template: Template) -> Poles
    ensures { poles_in result ≡ values_of (after 58 (poles template)) part.now }
{
    match template {
        Template::LatLon => Poles::None,
        Template::Rotated => Poles::Rotated(read_pole(part, 58)),
        Template::Stretched => Poles::Stretched(read_pole(part, 58)),
        Template::StretchedAndRotated => {
            Poles::StretchedAndRotated(read_pole(part, 58), read_pole(part, 70))
        }
    }
}

#[tactic(auto, using(octets::proofs::Signs::kept32), unfolding(layout::specs::Fields::placed, layout::specs::Fields::values_of, crate::specs::Blocks::pole, crate::specs::Blocks::pole_in))]
fn read_pole(part: &[u8], end: u32) -> Pole
    ensures { pole_in result ≡ values_of (after end pole) part.now }
{
    let before = end as usize;
    Pole {
        latitude: octets::signed32_at(part, before + 1),
        longitude: octets::signed32_at(part, before + 5),
        angle_or_factor: octets::u32_at(part, before + 9),
    }
}
