// The record of a section 4. A template is a run of blocks, and each block is read wherever it starts: `end` is the octet after
// which it stands. It is a u16 where more is added to it, so that no sum can wrap, and a u32 elsewhere.
ghost use Rattle.std.specs.Prelude.{◌≡◌, ◌+◌, ◌∷◌, [], cond};
ghost use Rattle.layout.specs.Fields.{none, after, values_of};
ghost use Rattle.product.specs.Blocks.{parameter, process, forecast, scaled, surface, ensemble, cluster, probability, aerosol, interval, parameter_in, process_in, forecast_in, scaled_in, surface_in, ensemble_in, cluster_in, probability_in, aerosol_in, end_in, interval_in, tag_in, ahead_in, behind_in, values_in};
ghost use Rattle.product.specs.Templates.{ahead, behind, part_tag, front_end, part_end, values₄};

use crate::templates::{PartKind, Template};
use layout::Time;

#[derive(Clone, Copy, PartialEq, Eq)]
pub struct Parameter {
    pub category: u8,
    pub number: u8,
}

// The generating process and the data's cut-off.
#[derive(Clone, Copy, PartialEq, Eq)]
pub struct Process {
    pub kind: u8,
    pub background: u8,
    pub identifier: u8,
    pub cutoff_hours: Option<u32>,
    pub cutoff_minutes: u8,
}

#[derive(Clone, Copy, PartialEq, Eq)]
pub struct Forecast {
    pub unit: u8,
    pub time: i32,
}

// A number as its scale factor and its scaled value.
#[derive(Clone, Copy, PartialEq, Eq)]
pub struct Scaled {
    pub factor: Option<i32>,
    pub value: Option<i32>,
}

#[derive(Clone, Copy, PartialEq, Eq)]
pub struct Surface {
    pub kind: u8,
    pub level: Scaled,
}

#[derive(Clone, Copy, PartialEq, Eq)]
pub struct EnsemblePart {
    pub kind: u8,
    pub perturbation: u8,
    pub forecasts: u8,
}

// `nc` is how many member numbers there are. Position, radius, deviation and distance are raw.
#[derive(Clone, Copy, PartialEq, Eq)]
pub struct ClusterPart {
    pub derived: u8,
    pub forecasts: u8,
    pub identifier: u8,
    pub high_control: u8,
    pub low_control: u8,
    pub clusters: u8,
    pub method: u8,
    pub latitude: u32,
    pub longitude: u32,
    pub radius: u32,
    pub nc: u8,
    pub deviation_factor: u8,
    pub deviation: u32,
    pub distance_factor: u8,
    pub distance: u32,
}

#[derive(Clone, Copy, PartialEq, Eq)]
pub struct ProbabilityPart {
    pub number: u8,
    pub probabilities: u8,
    pub kind: u8,
    pub lower: Scaled,
    pub upper: Scaled,
}

#[derive(Clone, Copy, PartialEq, Eq)]
pub struct AerosolPart {
    pub kind: u16,
    pub interval_of_sizes: u8,
    pub first: Scaled,
    pub second: Scaled,
}

#[derive(Clone, Copy, PartialEq, Eq)]
pub enum Part {
    None,
    Ensemble(EnsemblePart),
    Cluster(ClusterPart),
    Probability(ProbabilityPart),
    Aerosol(AerosolPart),
}

// The end of the interval, and n, how many time ranges there are.
#[derive(Clone, Copy, PartialEq, Eq)]
pub struct IntervalEnd {
    pub year: u16,
    pub time: Time,
    pub n: u8,
    pub missing_count: u32,
}

// Every field once. `nv` is how many coordinate values there are, and a template of a point in time has no interval.
#[derive(Clone, Copy, PartialEq, Eq)]
pub struct Product {
    pub length: u32,
    pub number: u8,
    pub nv: u16,
    pub template: u16,
    pub parameter: Parameter,
    pub process: Process,
    pub forecast: Forecast,
    pub first_surface: Surface,
    pub second_surface: Surface,
    pub part: Part,
    pub interval: Option<IntervalEnd>,
}

impl Template {
    // The record of a section that follows its template.
    #[tactic(auto, using(crate::proofs::FieldsByBlock::front_small, crate::proofs::FieldsByBlock::section4_values), unfolding(crate::specs::Blocks::values_in))]
    pub(crate) fn record_of(self, section: &[u8]) -> Product
        ensures { values_in result ≡ values₄ self.kind self.timed section.now }
    {
        let end = self.front_end();
        Product {
            length: octets::u32_at(section, 1),
            number: octets::u8_at(section, 5),
            nv: octets::u16_at(section, 6),
            template: octets::u16_at(section, 8),
            parameter: read_parameter(section, 9),
            process: read_process(section, end as u32),
            forecast: read_forecast(section, end as u32 + 6),
            first_surface: read_surface(section, end + 11),
            second_surface: read_surface(section, end + 17),
            part: read_part(section, self.kind),
            interval: self.read_interval(section),
        }
    }

    #[tactic(auto, unfolding(crate::specs::Blocks::interval_in))]
    fn read_interval(self, section: &[u8]) -> Option<IntervalEnd>
        ensures { interval_in result ≡ cond self.timed (values_of (after (part_end self.kind) interval) section.now) (none ∷ []) }
    {
        self.timed.then(|| read_end(section, self.part_end()))
    }
}

#[tactic(auto, unfolding(layout::specs::Fields::values_of, layout::specs::Fields::placed, crate::specs::Blocks::parameter, crate::specs::Blocks::parameter_in))]
fn read_parameter(section: &[u8], end: u32) -> Parameter
    ensures { parameter_in result ≡ values_of (after end parameter) section.now }
{
    let before = end as usize;
    Parameter {
        category: octets::u8_at(section, before + 1),
        number: octets::u8_at(section, before + 2),
    }
}

#[tactic(auto, unfolding(layout::specs::Fields::values_of, layout::specs::Fields::placed, crate::specs::Blocks::process, crate::specs::Blocks::process_in))]
fn read_process(section: &[u8], end: u32) -> Process
    ensures { process_in result ≡ values_of (after end process) section.now }
{
    let before = end as usize;
    Process {
        kind: octets::u8_at(section, before + 1),
        background: octets::u8_at(section, before + 2),
        identifier: octets::u8_at(section, before + 3),
        cutoff_hours: layout::or_missing::<u16>(section, before + 4),
        cutoff_minutes: octets::u8_at(section, before + 6),
    }
}

#[tactic(auto, using(octets::proofs::Signs::kept32), unfolding(layout::specs::Fields::values_of, layout::specs::Fields::placed, crate::specs::Blocks::forecast, crate::specs::Blocks::forecast_in))]
fn read_forecast(section: &[u8], end: u32) -> Forecast
    ensures { forecast_in result ≡ values_of (after end forecast) section.now }
{
    let before = end as usize;
    Forecast {
        unit: octets::u8_at(section, before + 1),
        time: octets::signed32_at(section, before + 2),
    }
}

#[tactic(auto, unfolding(layout::specs::Fields::values_of, layout::specs::Fields::placed, crate::specs::Blocks::scaled, crate::specs::Blocks::scaled_in))]
fn read_scaled(section: &[u8], end: u32) -> Scaled
    ensures { scaled_in result ≡ values_of (after end scaled) section.now }
{
    let before = end as usize;
    Scaled {
        factor: layout::signed_or_missing::<u8>(section, before + 1),
        value: layout::signed_or_missing::<u32>(section, before + 2),
    }
}

#[tactic(auto, using(layout::proofs::Blocks::moved), unfolding(layout::specs::Fields::values_of, layout::specs::Fields::placed, crate::specs::Blocks::scaled, crate::specs::Blocks::surface, crate::specs::Blocks::surface_in))]
fn read_surface(section: &[u8], end: u16) -> Surface
    ensures { surface_in result ≡ values_of (after end surface) section.now }
{
    Surface {
        kind: octets::u8_at(section, end as usize + 1),
        level: read_scaled(section, end as u32 + 1),
    }
}

#[tactic(auto, unfolding(layout::specs::Fields::values_of, layout::specs::Fields::placed, crate::specs::Templates::ahead, crate::specs::Templates::behind, crate::specs::Blocks::tag_in, crate::specs::Blocks::ahead_in, crate::specs::Blocks::behind_in))]
fn read_part(section: &[u8], kind: PartKind) -> Part
    ensures tags { tag_in result ≡ part_tag kind }
    ensures leads { ahead_in result ≡ values_of (after 11 (ahead kind)) section.now }
    ensures follows { behind_in result ≡ values_of (after (front_end kind + 23) (behind kind)) section.now }
{
    match kind {
        PartKind::None => Part::None,
        PartKind::Ensemble => Part::Ensemble(read_ensemble(section, 34)),
        PartKind::Cluster => Part::Cluster(read_cluster(section, 34)),
        PartKind::Probability => Part::Probability(read_probability(section, 34)),
        PartKind::Aerosol => Part::Aerosol(read_aerosol(section, 11)),
    }
}

#[tactic(auto, unfolding(layout::specs::Fields::values_of, layout::specs::Fields::placed, crate::specs::Blocks::ensemble, crate::specs::Blocks::ensemble_in))]
fn read_ensemble(section: &[u8], end: u32) -> EnsemblePart
    ensures { ensemble_in result ≡ values_of (after end ensemble) section.now }
{
    let before = end as usize;
    EnsemblePart {
        kind: octets::u8_at(section, before + 1),
        perturbation: octets::u8_at(section, before + 2),
        forecasts: octets::u8_at(section, before + 3),
    }
}

#[tactic(auto, unfolding(layout::specs::Fields::values_of, layout::specs::Fields::placed, crate::specs::Blocks::cluster, crate::specs::Blocks::cluster_in))]
fn read_cluster(section: &[u8], end: u32) -> ClusterPart
    ensures { cluster_in result ≡ values_of (after end cluster) section.now }
{
    let before = end as usize;
    ClusterPart {
        derived: octets::u8_at(section, before + 1),
        forecasts: octets::u8_at(section, before + 2),
        identifier: octets::u8_at(section, before + 3),
        high_control: octets::u8_at(section, before + 4),
        low_control: octets::u8_at(section, before + 5),
        clusters: octets::u8_at(section, before + 6),
        method: octets::u8_at(section, before + 7),
        latitude: octets::u32_at(section, before + 8),
        longitude: octets::u32_at(section, before + 12),
        radius: octets::u32_at(section, before + 16),
        nc: octets::u8_at(section, before + 20),
        deviation_factor: octets::u8_at(section, before + 21),
        deviation: octets::u32_at(section, before + 22),
        distance_factor: octets::u8_at(section, before + 26),
        distance: octets::u32_at(section, before + 27),
    }
}

#[tactic(auto, using(crate::proofs::FieldsByBlock::both_scaled), unfolding(layout::specs::Fields::values_of, layout::specs::Fields::placed, crate::specs::Blocks::scaled, crate::specs::Blocks::probability, crate::specs::Blocks::probability_in))]
fn read_probability(section: &[u8], end: u16) -> ProbabilityPart
    ensures { probability_in result ≡ values_of (after end probability) section.now }
{
    let before = end as usize;
    ProbabilityPart {
        number: octets::u8_at(section, before + 1),
        probabilities: octets::u8_at(section, before + 2),
        kind: octets::u8_at(section, before + 3),
        lower: read_scaled(section, end as u32 + 3),
        upper: read_scaled(section, end as u32 + 8),
    }
}

#[tactic(auto, using(crate::proofs::FieldsByBlock::both_scaled), unfolding(layout::specs::Fields::values_of, layout::specs::Fields::placed, crate::specs::Blocks::scaled, crate::specs::Blocks::aerosol, crate::specs::Blocks::aerosol_in))]
fn read_aerosol(section: &[u8], end: u16) -> AerosolPart
    ensures { aerosol_in result ≡ values_of (after end aerosol) section.now }
{
    let before = end as usize;
    AerosolPart {
        kind: octets::u16_at(section, before + 1),
        interval_of_sizes: octets::u8_at(section, before + 3),
        first: read_scaled(section, end as u32 + 3),
        second: read_scaled(section, end as u32 + 8),
    }
}

#[tactic(auto, using(layout::proofs::Blocks::moved), unfolding(layout::specs::Fields::values_of, layout::specs::Fields::placed, layout::specs::Time::time, crate::specs::Blocks::interval, crate::specs::Blocks::end_in))]
fn read_end(section: &[u8], end: u16) -> IntervalEnd
    ensures { end_in result ≡ values_of (after end interval) section.now }
{
    let before = end as usize;
    IntervalEnd {
        year: octets::u16_at(section, before + 1),
        time: layout::read_time(section, end as u32 + 2),
        n: octets::u8_at(section, before + 8),
        missing_count: octets::u32_at(section, before + 9),
    }
}
