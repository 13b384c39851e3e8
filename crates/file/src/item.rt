ghost use Rattle.std.specs.Prelude.{◌≡◌};
ghost use Rattle.file.specs.Item.{key_of};

use crate::key::Key;
use prices::BlockList;

// The apportioning rule that a file names for the draw.
#[derive(Clone, Copy, PartialEq, Eq, Debug)]
pub enum RuleName {
    Largest,
    Running,
}

// What a line of the file says, with the blocks of an offer held in any type; the key of an item asks nothing of them.
#[derive(Clone, Copy)]
pub enum ItemWith<Blocks> {
    Hour {
        label: u32,
    },
    Asset {
        asset: u32,
        letter: char,
        owner: u32,
    },
    Offer {
        asset: u32,
        blocks: Blocks,
    },
    Order {
        asset: u32,
        minute: u32,
        level: u32,
    },
    Shed {
        first: u32,
        end: u32,
    },
    Meter {
        asset: u32,
        kwh: u32,
    },
    Instruct {
        number: u32,
        source: u32,
        sink: u32,
        kwh: u32,
    },
    Rule {
        name: RuleName,
    },
}

// What a line of the file says, as it is read: the blocks of an offer are a list.
pub type Item = ItemWith<BlockList>;

impl<Blocks> ItemWith<Blocks> {
    // The key of the item's line.
    pub fn key(&self) -> Key
        ensures { result ≡ key_of self.now }
    {
        match self {
            ItemWith::Hour { .. } => Key::Hour,
            ItemWith::Asset { .. } => Key::Asset,
            ItemWith::Offer { .. } => Key::Offer,
            ItemWith::Order { .. } => Key::Order,
            ItemWith::Shed { .. } => Key::Shed,
            ItemWith::Meter { .. } => Key::Meter,
            ItemWith::Instruct { .. } => Key::Instruct,
            ItemWith::Rule { .. } => Key::Rule,
        }
    }
}
