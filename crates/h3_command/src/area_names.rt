//! The name of a cell's area, if no two areas overlap, or the names of its areas.

ghost use Rattle.std.specs.Prelude.{◌≡◌, [], false, All, get_or};
ghost use Rattle.h3_lines.specs.Pieces.{Uncut};
ghost use Rattle.h3_lines.specs.Text.{text_in};
ghost use Rattle.h3_rows.specs.Areas.{names_in};
ghost use Rattle.h3_command.specs.ShortNames.{AreShort};

use crate::files::look_ahead;
use crate::required::cell_given;
use crate::short_names::ShortName;
use h3_index::H3Error;
use h3_lines::{LINES, SHORT, Text, TextFunction, TextsFunction};
use h3_regions::{ApartAreas, Areas, TabledZones};
use h3_rows::Names;

/// Answers a cell with the name of its area, or with `none` if it is in no area. No two areas overlap.
#[derive(Drop)]
pub(crate) struct AreaOf<'a> {
    pub(crate) areas: ApartAreas<'a>,
    pub(crate) tabled: TabledZones<'a>,
    pub(crate) names: &'a Names,
    pub(crate) short: &'a [ShortName],
    pub(crate) none: &'a [u8],
    ghost lines: { All (λ name. Uncut 10 names.now.quotes false name false)
        (names_in names.now.bytes.items names.now.spans.items) },
    ghost line: { Uncut 10 names.now.quotes false none.now false },
    ghost copies: { AreShort (names_in names.now.bytes.items names.now.spans.items) short.now },
}

impl<'a> AreaOf<'a> {
    /// The name with a number.
    #[inline(always)]
    fn name(&self, number: usize) -> Text<'_>
        ensures { text_in result
            ≡ get_or (names_in self.now.names.now.bytes.items self.now.names.now.spans.items) number [] }
    {
        if number < self.short.len() {
            let short = &self.short[number];
            let count = short.count as usize;
            if count <= SHORT {
                return Text {
                    bytes: &short.bytes,
                    count,
                };
            }
        }
        match self.names.get(number) {
            Some(name) => Text::of(name),
            None => Text::of(b""),
        }
    }
}

impl<'a> TextFunction for AreaOf<'a> {
    ghost use Rattle.h3_command.specs.Areas.{name_answer};

    ghost answer_of = { λ f. name_answer f.none.now
        (names_in f.names.now.bytes.items f.names.now.spans.items) f.areas };

    ghost counts_quotes = { λ f. f.names.now.quotes };

    #[inline(always)]
    fn text(&self, index: Option<u64>, place: &mut usize) -> Result<Text<'_>, H3Error> {
        let cell = cell_given(index)?;
        match self.areas.area_near(cell, place) {
            Some(number) => Ok(self.name(number as usize)),
            None => Ok(Text::of(self.none)),
        }
    }

    #[inline(always)]
    fn looks_ahead(&self) -> bool {
        true
    }

    #[inline(always)]
    fn look_for(&self, index: u64, place: usize) -> usize {
        self.tabled.look_for(index, place)
    }

    #[inline(always)]
    fn look_ahead(&self, indexes: &[u64], place: usize) -> Option<[usize; LINES]> {
        look_ahead(&self.tabled, indexes, place)
    }
}

/// Answers a cell with the names of its areas, in their order, or with `none` if it is in no area.
#[derive(Drop)]
pub(crate) struct AreasOf<'a> {
    pub(crate) areas: Areas<'a>,
    pub(crate) names: &'a Names,
    pub(crate) none: &'a [u8],
    ghost lines: { All (λ name. Uncut 10 names.now.quotes false name false)
        (names_in names.now.bytes.items names.now.spans.items) },
    ghost line: { Uncut 10 names.now.quotes false none.now false },
}

impl<'a> TextsFunction for AreasOf<'a> {
    ghost use Rattle.std.specs.Prelude.{[], get_or, length};
    ghost use Rattle.h3_command.specs.Areas.{name_answer};

    ghost answer_of = { λ f. name_answer f.none.now
        (names_in f.names.now.bytes.items f.names.now.spans.items) f.areas };

    ghost counts_quotes = { λ f. f.names.now.quotes };

    ghost needs = { λ f. length f.areas };

    ghost text_of = { λ f n. get_or (names_in f.names.now.bytes.items f.names.now.spans.items) n [] };

    ghost none_of = { λ f. f.none.now };

    fn find(&self, index: Option<u64>, numbers: &mut [u32]) -> Result<usize, H3Error> {
        Ok(self.areas.areas_of(cell_given(index)?, numbers))
    }

    #[inline(always)]
    fn text(&self, number: u32) -> &[u8] {
        match self.names.get(number as usize) {
            Some(name) => name,
            None => b"",
        }
    }

    #[inline(always)]
    fn none(&self) -> &[u8] {
        self.none
    }
}
