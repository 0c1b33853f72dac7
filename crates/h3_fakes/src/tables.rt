//! The files of tables, in both formats: of the test tables, and of one on which a ring does not
//! close.

ghost use Rattle.std.specs.Prelude.{◌<◌};

use arrayvec::ArrayString;
use h3_directions::{DIRECTIONS, Direction};
use h3_index::is_pentagon_base;
use h3_table::vectors::{TestTable, link};
use itoa::Buffer;

/// The room for a file: a header of 16 bytes, and 660 records of at most 12. A file in format 2 is
/// shorter.
const FILE_ROOM: usize = 8192;

/// A file that takes no memory.
pub type TableFile = ArrayString<FILE_ROOM>;

/// The links of a base cell, by direction: the base cell that each leads to, and the turns.
type Links = [(u8, u8); 6];

/// Links along the ring of radius 2 around base cell 0: a base cell, a direction and the base cell
/// that it leads to. Two lead out to the ring in the direction I, and twelve around it. The last of
/// them leads to base cell 16, and not to 2, with which the ring begins. Base cells 1, 2 and 3 are
/// a triangle.
const OPEN_RING: [(u8, Direction, u8); 15] = [
    (0, Direction::I, 1),
    (1, Direction::I, 2),
    (1, Direction::IJ, 3),
    (2, Direction::J, 3),
    (3, Direction::J, 5),
    (5, Direction::JK, 6),
    (6, Direction::JK, 7),
    (7, Direction::K, 8),
    (8, Direction::K, 9),
    (9, Direction::IK, 10),
    (10, Direction::IK, 11),
    (11, Direction::I, 12),
    (12, Direction::I, 13),
    (13, Direction::IJ, 15),
    (15, Direction::IJ, 16),
];

/// The links of a base cell of a test table, or nothing for a pentagon.
fn test_links(table: TestTable, base: u8) -> Option<Links>
    requires { base < 122 }
{
    if is_pentagon_base(base) {
        return None;
    }
    let mut links = [(0, 0); 6];
    for (direction, place) in DIRECTIONS.iter().zip(links.iter_mut()) {
        *place = link(table, base, *direction);
    }
    Some(links)
}

/// Changes the link in a direction.
fn set_link(links: &mut Links, direction: Direction, to: u8, turns: u8) {
    links[direction.digit() as usize - 1] = (to, turns);
}

/// The links of a base cell that are those of `OPEN_RING` and those back, and otherwise lead to
/// pentagon base cells; or nothing for a pentagon.
fn open_links(base: u8) -> Option<Links> {
    if is_pentagon_base(base) {
        return None;
    }
    let mut links = [(4, 0), (14, 0), (24, 0), (38, 0), (49, 0), (58, 0)];
    for (from, direction, to) in OPEN_RING {
        if base == from {
            set_link(&mut links, direction, to, 0);
        }
        if base == to {
            set_link(&mut links, direction.opposite(), from, 0);
        }
    }
    Some(links)
}

/// Adds a number after what stands before it.
fn push_field(file: &mut TableFile, before: &str, number: u8) {
    let mut buffer = Buffer::new();
    let _ = file.try_push_str(before);
    let _ = file.try_push_str(buffer.format(number));
}

/// Adds the six records of a base cell in format 1.
fn push_records(file: &mut TableFile, base: u8, links: &Links) {
    for (digit, (to, turns)) in (1..7u8).zip(links.iter()) {
        push_field(file, "", base);
        push_field(file, ",", digit);
        push_field(file, ",", *to);
        push_field(file, ",", *turns);
        let _ = file.try_push('\n');
    }
}

/// Adds the record of a base cell in format 2.
fn push_record(file: &mut TableFile, base: u8, links: &Links) {
    push_field(file, "", base);
    for (to, _) in links.iter() {
        push_field(file, ",", *to);
    }
    for (_, turns) in links.iter() {
        push_field(file, ",", *turns);
    }
    let _ = file.try_push('\n');
}

/// A file of format 1 without records.
fn header() -> TableFile {
    let mut file = ArrayString::new();
    let _ = file.try_push_str("base,dir,to,rot\n");
    file
}

/// The file of a test table in format 1, by ascending base cell and direction.
pub fn table_file(table: TestTable) -> TableFile {
    let mut file = header();
    for base in 0..122u8 {
        if let Some(links) = test_links(table, base) {
            push_records(&mut file, base, &links);
        }
    }
    file
}

/// The same where the link of base cell 0 in a direction, by its digit, leads to another base cell
/// or has other turns.
pub fn changed_file(table: TestTable, digit: u8, to: u8, turns: u8) -> TableFile {
    let mut file = header();
    for base in 0..122u8 {
        if let Some(mut links) = test_links(table, base) {
            if base == 0
                && let Some(direction) = Direction::from_digit(digit)
            {
                set_link(&mut links, direction, to, turns);
            }
            push_records(&mut file, base, &links);
        }
    }
    file
}

/// The file of a test table in format 2, by ascending base cell.
pub fn bases_file(table: TestTable) -> TableFile {
    let mut file = ArrayString::new();
    let _ = file.try_push_str("base,k,j,jk,i,ik,ij,rk,rj,rjk,ri,rik,rij\n");
    for base in 0..122u8 {
        if let Some(links) = test_links(table, base) {
            push_record(&mut file, base, &links);
        }
    }
    file
}

/// The file of a sound table in format 1 on which the ring of radius 2 around base cell 0 does not
/// close: it begins with base cell 2 and ends beside base cell 16.
pub fn open_file() -> TableFile {
    let mut file = header();
    for base in 0..122u8 {
        if let Some(links) = open_links(base) {
            push_records(&mut file, base, &links);
        }
    }
    file
}
