// The templates of section 4: the part that each has, where its blocks and lists end, and the total.
ghost use Rattle.std.specs.Prelude.{◌≡◌};
ghost use Rattle.product.specs.Templates.{listed_or_6, template_of, front_end, part_end, ranges_end, total, ranges_at, members_at};

use layout::Refusal;

// Which part a template has.
#[derive(Clone, Copy, PartialEq, Eq)]
pub enum PartKind {
    None,
    Ensemble,
    Cluster,
    Probability,
    Aerosol,
}

// What a template's number says: its part, and whether it speaks of an interval, with time ranges, or of a point in time.
#[derive(Clone, Copy, PartialEq, Eq)]
pub struct Template {
    pub kind: PartKind,
    pub timed: bool,
}

// By its number, or 6.
impl TryFrom<u16> for Template {
    type Error = Refusal;

    ghost try_from_gives = { λ number answer. answer ≡ listed_or_6 (template_of number) };

    #[tactic(auto, unfolding(crate::specs::Templates::template_of))]
    fn try_from(number: u16) -> Result<Self, Refusal> {
        match number {
            0 => Ok(Self::of(PartKind::None, false)),
            1 => Ok(Self::of(PartKind::Ensemble, false)),
            4 => Ok(Self::of(PartKind::Cluster, false)),
            5 => Ok(Self::of(PartKind::Probability, false)),
            8 => Ok(Self::of(PartKind::None, true)),
            9 => Ok(Self::of(PartKind::Probability, true)),
            11 => Ok(Self::of(PartKind::Ensemble, true)),
            14 => Ok(Self::of(PartKind::Cluster, true)),
            46 => Ok(Self::of(PartKind::Aerosol, true)),
            _ => Err(Refusal::of(6, 4)),
        }
    }
}

impl Template {
    fn of(kind: PartKind, timed: bool) -> Self
        ensures { result ≡ record { kind = kind; timed = timed } }
    {
        Self { kind, timed }
    }

    // The octet after which the generating process stands.
    pub(crate) fn front_end(self) -> u16
        ensures { result ≡ front_end self.kind }
    {
        match self.kind {
            PartKind::None => 11,
            PartKind::Ensemble => 11,
            PartKind::Cluster => 11,
            PartKind::Probability => 11,
            PartKind::Aerosol => 24,
        }
    }

    // The octet after which the end of the interval stands, where there is one.
    pub(crate) fn part_end(self) -> u16
        ensures { result ≡ part_end self.kind }
    {
        match self.kind {
            PartKind::None => 34,
            PartKind::Ensemble => 37,
            PartKind::Cluster => 64,
            PartKind::Probability => 47,
            PartKind::Aerosol => 47,
        }
    }

    // The octet at which so many time ranges end, or the part before them where the template has none.
    #[tactic(auto, unfolding(crate::specs::Templates::ranges_end))]
    pub(crate) fn ranges_end(self, ranges: u8) -> u32
        ensures { result ≡ ranges_end self.kind self.timed ranges }
    {
        let end = self.part_end() as u32;
        if self.timed {
            end + 12 + 12 * (ranges as u32)
        } else {
            end
        }
    }

    // The octets of a section with so many time ranges, members and coordinate values.
    #[tactic(auto, unfolding(crate::specs::Templates::total))]
    pub(crate) fn total(self, ranges: u8, members: u8, coordinates: u16) -> usize
        ensures { result ≡ total self.kind self.timed ranges members coordinates }
    {
        self.ranges_end(ranges) as usize + members as usize + 4 * (coordinates as usize)
    }

    // n, and 0 where the template has no time ranges.
    #[tactic(auto, unfolding(crate::specs::Templates::ranges_at))]
    pub(crate) fn range_count(self, section: &[u8]) -> u8
        ensures { result ≡ ranges_at self.kind self.timed section.now }
    {
        let at = self.part_end() as usize + 8;
        if self.timed {
            octets::u8_at(section, at)
        } else {
            0
        }
    }

    // Nc, and 0 where the template has no members.
    pub(crate) fn member_count(self, section: &[u8]) -> u8
        ensures { result ≡ members_at self.kind section.now }
    {
        if self.kind == PartKind::Cluster {
            octets::u8_at(section, 54)
        } else {
            0
        }
    }
}
