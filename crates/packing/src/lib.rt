// Sections 5 and 7: simple packing, and unpacking into a lent row.
#![tactic(auto)]

ghost use Rattle.std.specs.Prelude.{◌≡◌};
ghost use Rattle.layout.specs.Fields.{after, values_of};
ghost use Rattle.layout.specs.Outcomes.{told};
ghost use Rattle.packing.specs.Section5.{outcome₅, fields₅, values_in₅};
ghost use Rattle.packing.specs.Section7.{outcome₇, values_in₇};
ghost use Rattle.packing.specs.Unpacking.{Unpacks};

use layout::Refusal;

// Section 5: every field once. `values` is N, `reference` R as bits, `binary_scale` E and `decimal_scale` D.
#[derive(Clone, Copy, PartialEq, Eq)]
pub struct Packing {
    pub length: u32,
    pub number: u8,
    pub values: u32,
    pub template: u16,
    pub reference: u32,
    pub binary_scale: i32,
    pub decimal_scale: i32,
    pub bits: u8,
    pub value_type: u8,
}

// Section 7, beside its packed values, which are its octets from octet 6 on.
#[derive(Clone, Copy, PartialEq, Eq)]
pub struct DataSection {
    pub length: u32,
    pub number: u8,
}

// Reads a lent section 5, or refuses it with 1 to 8 or 21.
#[tactic(auto, using(crate::proofs::ByChecks::section5_by_checks))]
pub fn read(section: &[u8]) -> Result<Packing, Refusal>
    ensures { told values_in₅ result ≡ outcome₅ section.now }
{
    layout::check_opening(section, 5, 11)?;
    if octets::u16_at(section, 10) != 0 {
        return Err(Refusal::of(6, 5));
    }
    if section.len() < 21 {
        return Err(Refusal::of(7, 5));
    }
    layout::check_within(section, 5, 20, 0, 32)?;
    layout::check_total(section, 5, 21)?;
    Ok(record_of(section))
}

// The record of a section that follows template 5.0.
#[tactic(auto, using(crate::proofs::ByChecks::section5_values, octets::proofs::Signs::kept32))]
fn record_of(section: &[u8]) -> Packing
    ensures { values_in₅ result ≡ values_of (after 0 fields₅) section.now }
{
    Packing {
        length: octets::u32_at(section, 1),
        number: octets::u8_at(section, 5),
        values: octets::u32_at(section, 6),
        template: octets::u16_at(section, 10),
        reference: octets::u32_at(section, 12),
        binary_scale: octets::signed16_at(section, 16),
        decimal_scale: octets::signed16_at(section, 18),
        bits: octets::u8_at(section, 20),
        value_type: octets::u8_at(section, 21),
    }
}

// Reads a lent section 7 of `values` numbers of `bits` bits, or refuses it with 1 to 4 or 15.
#[tactic(auto, using(crate::proofs::ByChecks::section7_by_checks))]
pub fn read_data(section: &[u8], values: u32, bits: u8) -> Result<DataSection, Refusal>
    ensures { told values_in₇ result ≡ outcome₇ values bits section.now }
{
    layout::check_head(section, 7)?;
    // At most 40 bits: the product never wraps.
    let packed = (values as u64 * bits as u64 + 7) / 8;
    if section.len() as u64 != 5 + packed {
        return Err(Refusal::of(15, 7));
    }
    Ok(DataSection {
        length: octets::u32_at(section, 1),
        number: octets::u8_at(section, 5),
    })
}

// Writes the N whole numbers of sections 5 and 7 into a lent row of exactly N places, and answers N. A refusal, of section 5, of section 7,
// or 18 for the row, leaves every place of the row as it was.
#[tactic(auto, using(crate::proofs::Unpacks::five_there))]
pub fn unpack(section5: &[u8], section7: &[u8], row: &mut [u32]) -> Result<u32, Refusal>
    ensures { Unpacks section5.now section7.now row.old result row.new }
{
    let packing = read(section5)?;
    read_data(section7, packing.values, packing.bits)?;
    if row.len() != packing.values as usize {
        return Err(Refusal::of(18, 0));
    }
    unpacking::unpack(&section7[5..], packing.bits as u32, row);
    Ok(packing.values)
}
