//! The lines of counts, made one by one.

ghost use Rattle.std.specs.Prelude.{◌≡◌, ◌≤◌, ◌++◌, ◌∷◌, [], List, None, length};
ghost use Rattle.std.specs.Iterator.{YieldsFirst, item_count};
ghost use Rattle.h3_index.specs.Cell.{Address};
ghost use Rattle.h3_regions.specs.Counting.{AreCounts, count_outside};
ghost use Rattle.h3_regions.specs.Zones.{IsZones, by_number};

use h3_index::Cell;
use h3_regions::Zones;
use h3_regions::laws::zones_are_lawful;
use h3_tree::laws::cells_form_intervals;

/// The zones in ascending order with their counts, and then no zone with the number of others.
///
/// In post order the zones of one resolution ascend by number. So there is a pass over all zones
/// for each resolution, the coarsest first, and no other order of them is kept. It holds how many
/// passes are left, and the place at which the first of these goes on.
#[derive(Drop)]
pub(crate) struct CountLines<'a> {
    zones: &'a [Cell],
    counts: &'a [u64],
    others: Option<u64>,
    passes: u8,
    place: usize,
    ghost size: { length counts.now ≡ length zones.now },
    ghost sixteen: { passes ≤ 16 },
    ghost within: { place ≤ length zones.now },
}

impl<'a> CountLines<'a> {
    ghost use Rattle.h3_command.specs.CountLines.{lines_left};
    ghost use Rattle.h3_command.specs.Files.{zone_counts};

    /// The lines of zones, which have these counts.
    pub(crate) fn new(zones: &Zones<'a>, counts: &'a [u64], others: u64) -> CountLines<'a>
        requires { length counts.now ≡ length zones.now }
        ensures { (cells : List Address) → AreCounts zones.now cells counts.now others
            → lines_left result ≡ zone_counts (by_number zones.now) cells
            ++ (None, count_outside zones.now cells) ∷ [] }
    {
        zones_are_lawful();
        cells_form_intervals();
        CountLines {
            zones: zones.cells(),
            counts,
            others: Some(others),
            passes: 16,
            place: 0,
        }
    }
}

impl<'a> Iterator for CountLines<'a> {
    ghost use Rattle.h3_command.specs.CountLines.{lines_left};

    type Item = (Option<Cell>, u64);

    ghost next_gives = { YieldsFirst lines_left };

    ghost remaining = { item_count lines_left };

    fn next(&mut self) -> Option<(Option<Cell>, u64)> {
        while self.passes > 0 {
            let place = self.place;
            if place == self.zones.len() {
                self.passes -= 1;
                self.place = 0;
                continue;
            }
            self.place += 1;
            let zone = self.zones[place];
            if zone.resolution() == 16 - self.passes {
                return Some((Some(zone), self.counts[place]));
            }
        }
        match self.others {
            Some(others) => {
                self.others = None;
                Some((None, others))
            }
            None => None,
        }
    }
}
