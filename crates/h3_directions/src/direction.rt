//! The six directions of the grid.

ghost use Rattle.std.specs.Prelude.{◌≡◌};
ghost use Rattle.h3_directions.specs.Eisenstein.{minus_one, product_of};
ghost use Rattle.h3_directions.specs.Direction.{digit_of, direction_of, opposite, turned_once, unit_of};

/// A direction of the grid, as H3's `Direction` names them; digit 0, the center, is not a
/// direction here.
#[derive(Clone, Copy, Debug, PartialEq, Eq)]
pub enum Direction {
    /// Digit 1, the Eisenstein integer -1 - w.
    K,

    /// Digit 2, the Eisenstein integer w.
    J,

    /// Digit 3, the Eisenstein integer -1.
    JK,

    /// Digit 4, the Eisenstein integer 1.
    I,

    /// Digit 5, the Eisenstein integer -w.
    IK,

    /// Digit 6, the Eisenstein integer 1 + w.
    IJ,
}

/// All directions, in the order of their digits.
pub const DIRECTIONS: [Direction; 6] = [
    Direction::K,
    Direction::J,
    Direction::JK,
    Direction::I,
    Direction::IK,
    Direction::IJ,
];

impl Direction {
    /// The digit of the direction, 1 to 6.
    pub fn digit(self) -> u8
        ensures { result ≡ digit_of self }
    {
        match self {
            Direction::K => 1,
            Direction::J => 2,
            Direction::JK => 3,
            Direction::I => 4,
            Direction::IK => 5,
            Direction::IJ => 6,
        }
    }

    /// The direction of a digit: none for 0, the center, and none above 6.
    pub fn from_digit(digit: u8) -> Option<Direction>
        ensures { result ≡ direction_of digit }
    {
        match digit {
            1 => Some(Direction::K),
            2 => Some(Direction::J),
            3 => Some(Direction::JK),
            4 => Some(Direction::I),
            5 => Some(Direction::IK),
            6 => Some(Direction::IJ),
            _ => None,
        }
    }

    /// The direction that leads back: the product with -1.
    pub fn opposite(self) -> Direction
        ensures is { result ≡ opposite self }
        ensures product { unit_of result ≡ product_of minus_one (unit_of self) }
    {
        match self {
            Direction::K => Direction::IJ,
            Direction::J => Direction::IK,
            Direction::JK => Direction::I,
            Direction::I => Direction::JK,
            Direction::IK => Direction::J,
            Direction::IJ => Direction::K,
        }
    }

    /// The direction turned once: the product with 1 + w.
    pub fn turned_once(self) -> Direction
        ensures { result ≡ turned_once self }
    {
        match self {
            Direction::K => Direction::IK,
            Direction::J => Direction::JK,
            Direction::JK => Direction::K,
            Direction::I => Direction::IJ,
            Direction::IK => Direction::I,
            Direction::IJ => Direction::J,
        }
    }
}
