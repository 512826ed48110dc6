ghost use Rattle.std.specs.Prelude.{◌≡◌};
ghost use Rattle.answer.specs.Numbers.{reason_number, place_number, placed_number, node_number};

use crate::faults::close_at_node;
use std::fmt;

// Why a call is refused: 1 to 10 for what it was handed, 11 to 16 for the state of the machine.
#[derive(Clone, Copy, PartialEq, Eq)]
pub enum Reason {
    TableSize = 1,
    DeclaredWidth = 2,
    AddressOrder = 3,
    Unresolved = 4,
    ItemCount = 5,
    RuleBroken = 6,
    BadTarget = 7,
    BadPresets = 8,
    TargetDenied = 9,
    NoSuchVariable = 10,
    NotLoaded = 11,
    AlreadyLoaded = 12,
    OtherModel = 13,
    Halted = 14,
    PeekDenied = 15,
    PeekOutside = 16,
}

impl Reason {
    pub fn number(&self) -> u8
        ensures { result ≡ reason_number self.now }
    {
        *self as u8
    }

    // What a tester reads beside the number.
    fn meaning(&self) -> &'static str {
        match self {
            Reason::TableSize => "no instruction, or a table over its limit",
            Reason::DeclaredWidth => "a declared width is not 1 to 64",
            Reason::AddressOrder => "the address is not above the one before",
            Reason::Unresolved =>
                "a span or a variable that is not there, or a read in a condition",
            Reason::ItemCount => "an item is missing, over 32 are held, or not one is left",
            Reason::RuleBroken => "a rule of width, size or range is broken",
            Reason::BadTarget =>
                "a target or the entry is absent, or enters a block past its number 0",
            Reason::BadPresets => "over 256 presets, or one byte preset twice",
            Reason::TargetDenied => "a fixed target or the entry may not be executed",
            Reason::NoSuchVariable => "no such variable",
            Reason::NotLoaded => "no model is loaded",
            Reason::AlreadyLoaded => "a model is loaded already",
            Reason::OtherModel => "the model is not the one that was loaded",
            Reason::Halted => "the machine has halted",
            Reason::PeekDenied => "reading the byte is denied",
            Reason::PeekOutside => "the region is not made, freed or too short",
        }
    }
}

impl fmt::Display for Reason {
    fn fmt<W: fmt::Write>(&self, f: &mut fmt::Formatter<W>) -> fmt::Result {
        write!(f, "refusal {}: {}", self.number(), self.meaning())
    }
}

// What a refusal is about; each kind is counted from 1.
#[derive(Clone, Copy, PartialEq, Eq)]
pub enum Place {
    Instruction(u16),
    Condition(u16),
    Variable(u16),
    Preset(u16),
}

impl Place {
    pub fn number(&self) -> u16
        ensures { result ≡ place_number self.now }
    {
        match *self {
            Place::Instruction(n) | Place::Condition(n) | Place::Variable(n) | Place::Preset(n) =>
                n,
        }
    }
}

impl fmt::Display for Place {
    fn fmt<W: fmt::Write>(&self, f: &mut fmt::Formatter<W>) -> fmt::Result {
        match *self {
            Place::Instruction(n) => write!(f, "instruction {n}"),
            Place::Condition(n) => write!(f, "condition {n}"),
            Place::Variable(n) => write!(f, "variable {n}"),
            Place::Preset(n) => write!(f, "preset {n}"),
        }
    }
}

// A refused call: why; where, if at a place; and at which node of the node table, counted from 1, if at one.
#[derive(Clone, Copy, PartialEq, Eq)]
pub struct Refusal {
    pub reason: Reason,
    pub place: Option<Place>,
    pub node: Option<u16>,
}

impl Refusal {
    // The place as one number, 0 for none.
    pub fn place_number(&self) -> u16
        ensures { result ≡ placed_number self.now.place }
    {
        self.place.map_or(0, |place| place.number())
    }

    // The node as a number, 0 for none.
    pub fn node_number(&self) -> u16
        ensures { result ≡ node_number self.now.node }
    {
        self.node.unwrap_or(0)
    }
}

impl fmt::Display for Refusal {
    fn fmt<W: fmt::Write>(&self, f: &mut fmt::Formatter<W>) -> fmt::Result {
        let Refusal {
            reason,
            place,
            node,
        } = *self;
        match place {
            None => write!(f, "{reason} (at no place")?,
            Some(place) => write!(f, "{reason} (at {place}")?,
        }
        close_at_node(f, node)
    }
}
