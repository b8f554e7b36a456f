// A whole field: five lent sections in the order 1, 3, 4, 5, 7.
#![tactic(auto)]

ghost use Rattle.std.specs.Prelude.{◌≡◌};
ghost use Rattle.layout.specs.Outcomes.{told as told_by, check_of};
ghost use Rattle.packing.specs.Section5.{values_in₅};
ghost use Rattle.field.specs.Field.{field_outcome, packing_outcome, later_outcome, told};

use grid::Grid;
use identification::Identification;
use layout::Refusal;
use packing::Packing;
use product::Product;

// The four records. Of section 7 nothing is left to say: its number is 7, and its length follows from section 5.
#[derive(Clone, Copy, PartialEq, Eq)]
pub struct WholeField {
    pub identification: Identification,
    pub grid: Grid,
    pub product: Product,
    pub packing: Packing,
}

// Reads the five sections of a field, or refuses them as the first section does that is refused.
pub fn read(
    section1: &[u8],
    section3: &[u8],
    section4: &[u8],
    section5: &[u8],
    section7: &[u8],
) -> Result<WholeField, Refusal>
    ensures { told result ≡ field_outcome section1.now section3.now section4.now section5.now section7.now }
{
    // Document 01 names the form: each section's answer is taken apart by `let .. else`, and its refusal handed on.
    let one = identification::read(section1);
    let Ok(identification) = one else {
        return Err(one.unwrap_err());
    };
    let three = grid::read(section3);
    let Ok(grid) = three else {
        return Err(three.unwrap_err());
    };
    let four = product::read(section4);
    let Ok(product) = four else {
        return Err(four.unwrap_err());
    };
    let five = read_packing(grid.points, section5, section7);
    let Ok(packing) = five else {
        return Err(five.unwrap_err());
    };
    Ok(WholeField {
        identification,
        grid,
        product,
        packing,
    })
}

// Checks sections 4, 5 and 7 of a field whose sections 1 and 3 are read: a field may have the sections 1 and 3 of the one before it, which need
// no second reading. `points` is what octets 7-10 of section 3 say.
pub fn check_later(
    points: u32,
    section4: &[u8],
    section5: &[u8],
    section7: &[u8],
) -> Result<(), Refusal>
    ensures { result ≡ check_of (later_outcome points section4.now section5.now section7.now) }
{
    product::read(section4)?;
    read_packing(points, section5, section7)?;
    Ok(())
}

// The rest of the reading: section 5, N against section 3's points, section 7.
fn read_packing(points: u32, section5: &[u8], section7: &[u8]) -> Result<Packing, Refusal>
    ensures { told_by values_in₅ result ≡ packing_outcome points section5.now section7.now }
{
    let packing = packing::read(section5)?;
    if packing.values != points {
        return Err(Refusal::of(14, 5));
    }
    packing::read_data(section7, packing.values, packing.bits)?;
    Ok(packing)
}
