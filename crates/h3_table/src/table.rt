//! The base cell table.

ghost use Rattle.std.specs.Prelude.{◌+◌, ◌≡◌, ◌≢◌, ◌≤◌, ◌<◌, ◌*◌, ◌^◌, ◌⊎◌, ℕ, true, false, List, [], length, None, Some, Err, IfOk, IfErr};
ghost use Rattle.h3_index.specs.Cell.{is_pentagon_base};
ghost use Rattle.h3_streams.specs.Stream.{HasLeft};
ghost use Rattle.h3_table.specs.Fields.{records_of};
ghost use Rattle.h3_table.specs.Closed.{closed_link};
ghost use Rattle.h3_table.specs.Links.{AreLinks, IsLink, IsSound, links_in};
ghost use Rattle.h3_directions.specs.declared.direction.Direction.{Direction};
ghost use Rattle.h3_directions.specs.declared.error.TableError.{TableError};
ghost use Rattle.h3_table.specs.Checks.{fault_of_links};
ghost use Rattle.h3_table.specs.First.{FaultsAreFirst};
ghost use Rattle.h3_table.specs.Table.{ChecksMeanSound, RefusesTable, SoundFilesAreAccepted, links_of, table_fault};

use crate::bytes::read_bytes;
use crate::checks::fault_of_links;
use crate::links::{LINKS, Link, Links, filled, link_at};
use crate::records::read_records;
use crate::scan::first_fault;
use h3_directions::{Direction, TableError};
use h3_streams::Source;
use std::alloc::Global;

/// The bytes that are read at once.
const PAGE: usize = 4096;

/// How many reads a table may take.
const MAX_READS: u64 = 1 << 40;

/// The first six of the pentagon base cells.
const PENTAGONS: [u8; 6] = [4, 14, 24, 38, 49, 58];

/// How the 110 hexagon base cells lie beside each other: in each of six directions the neighbor,
/// and how often each digit is turned on crossing. Its links fit together: none of the checks of
/// [`TableError`] fails. It has a fixed size, and allocates nothing.
#[repr(C)]
#[derive(Debug, Drop)]
pub struct BaseTable {
    links: Links,
    ghost within: { AreLinks links },
    ghost sound: { IsSound (links_in links) },
}

impl BaseTable {
    ghost use Rattle.h3_table.specs.BaseTable.{link_of};

    /// The table of these links, or the first check that fails.
    fn new(links: Links) -> Result<BaseTable, TableError>
        requires { AreLinks links }
        ensures refused { IfErr result (λ e. fault_of_links (links_in links) ≡ Some e) }
        ensures accepted { IfOk result (λ table. (fault_of_links (links_in links) ≡ None)
            × (link_of table ≡ links_in links)) }
    {
        match fault_of_links(&links) {
            Some(fault) => Err(fault),
            None => Ok(BaseTable { links }),
        }
    }

    /// A table of which every link leads to a pentagon base cell, so that over it every step out of
    /// a base cell is refused. It stands in the place of a table that there is not.
    pub fn closed() -> BaseTable
        ensures { (b : ℕ) → (d : Direction) → b < 122 → link_of result b d ≡ closed_link d }
    {
        let mut links = [Link { to: 0, turns: 0 }; LINKS];
        for i in 0..LINKS {
            let to = PENTAGONS[i % 6];
            links[i] = Link { to, turns: 0 };
        }
        BaseTable { links }
    }

    /// Returns the table in the bytes of a file, which has one of the two formats of
    /// [`BaseTable::read`].
    ///
    /// # Errors
    ///
    /// In this order:
    ///
    /// - The first faulty record.
    /// - A missing record.
    /// - The first check that fails, by ascending base cell and direction.
    ///
    /// Or [`TableError::Memory`] if there is no memory for a record; never [`TableError::Read`].
    pub fn from_csv(alloc: Global, file: &[u8]) -> Result<BaseTable, TableError>
        ensures accepted { IfOk result (λ table. (table_fault (records_of file.now) ≡ None) ×
            (link_of table ≡ links_of (records_of file.now))) }
        ensures refused { IfErr result (λ e.
            RefusesTable ⊥ (table_fault (records_of file.now)) e) }
    {
        let slots = read_records(alloc, file)?;
        match first_fault(&slots) {
            Some(fault) => Err(fault),
            None => BaseTable::new(filled(&slots)),
        }
    }

    /// Reads a table file to its end and checks it.
    ///
    /// The file is CSV, in one of two formats, each with its own header. Numbers have 1 to 3
    /// digits, and records come in any order.
    ///
    /// - Format 1: the header is `base,dir,to,rot`, and then comes exactly one record for each
    ///   hexagon base cell and direction. In the frame of the base cell `base`, the base cell `to`
    ///   lies in the direction of the digit `dir`, and each digit is turned `rot` times on
    ///   crossing.
    /// - Format 2: the header is `base,k,j,jk,i,ik,ij,rk,rj,rjk,ri,rik,rij`, and then comes exactly
    ///   one record for each hexagon base cell. In its frame, the base cells `k`, `j`, `jk`, `i`,
    ///   `ik` and `ij` lie in the directions of these names, and each digit is turned `rk`, `rj`,
    ///   `rjk`, `ri`, `rik` and `rij` times on crossing into them.
    ///
    /// # Errors
    ///
    /// In this order:
    ///
    /// - [`TableError::Read`] if the reader fails, or is not at its end within 2^40 reads.
    /// - The first faulty record.
    /// - A missing record.
    /// - The first check that fails, by ascending base cell and direction.
    ///
    /// Or [`TableError::Memory`] if there is no memory for the file or a record.
    pub fn read<R: Source>(alloc: Global, source: &mut R) -> Result<BaseTable, TableError>
        // The bytes of the file are those left in the source, where it is known which they are.
        // 2^40 reads of a page find their end.
        ensures accepted { IfOk result (λ table. (bytes : List ℕ) ×
            HasLeft (R.left source.old) bytes × (length bytes + 4096 ≤ 2 ^ 40 * 4096) ×
            (table_fault (records_of bytes) ≡ None) ×
            (link_of table ≡ links_of (records_of bytes))) }
        ensures refused { IfErr result (λ e. (bytes : List ℕ) ×
            HasLeft (R.left source.old) bytes ×
            RefusesTable ((R.has_failed source.new ≡ true) ⊎ (2 ^ 40 ≤ length bytes))
            (table_fault (records_of bytes)) e ×
            (e ≢ TableError.Read → e ≢ TableError.Memory → length bytes + 4096 ≤ 2 ^ 40 * 4096)) }
        ensures sound { IfOk result (λ table. IsSound (link_of table)) }

        // A read that fails is never passed over.
        ensures kept { result ≢ Err TableError.Read →
            R.has_failed source.new ≡ R.has_failed source.old }

        // A table is accepted or refused for what is in it only after all of it was read.
        ensures whole { result ≢ Err TableError.Read → result ≢ Err TableError.Memory →
            (bytes : List ℕ) → R.left source.old ≡ Some bytes → R.left source.new ≡ Some [] }

        // Laws of the definitions above: which files have no fault, and which fault is the first.
        ensures exact { SoundFilesAreAccepted }
        ensures checks { ChecksMeanSound }
        ensures first { FaultsAreFirst }
    {
        let mut page = [0; PAGE];
        let text = read_bytes(alloc, source, MAX_READS, &mut page)?;
        BaseTable::from_csv(alloc, text.as_slice())
    }

    /// A law: the links of every table are sound. It does nothing.
    pub fn links_are_sound(&self)
        ensures { IsSound (link_of self.now) }
    {}

    /// The neighbor of a hexagon base cell in a direction, 0 to 121, and how often each digit is
    /// turned on crossing into it, 0 to 5.
    pub fn link(&self, base: u8, direction: Direction) -> (u8, u8)
        requires some { base < 122 }
        requires hexagon { is_pentagon_base base ≡ false }
        ensures is { result ≡ link_of self.now base direction }
        ensures within { IsLink result }
        ensures sound { IsSound (link_of self.now) }
    {
        link_at(&self.links, base, direction)
    }
}
