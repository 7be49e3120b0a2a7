// The two sides of a node, and the links to the trees there.
ghost use Rattle.std.specs.Prelude.{◌≡◌};
ghost use Rattle.table.specs.Side.{across, links_of, link_on};

use crate::node::NONE;

#[derive(Clone, Copy, PartialEq, Eq, Debug, Default)]
pub(crate) enum Side {
    #[default]
    Left,
    Right,
}

impl Side {
    // The other side.
    pub(crate) fn other(self) -> Side
        ensures { result ≡ across self }
    {
        match self {
            Side::Left => Side::Right,
            Side::Right => Side::Left,
        }
    }
}

// The links to two trees.
#[derive(Clone, Copy)]
pub(crate) struct Links {
    pub(crate) left: u16,
    pub(crate) right: u16,
}

impl Links {
    // Links to no trees.
    pub(crate) const NONE: Links = Links {
        left: NONE,
        right: NONE,
    };

    // The near link on a side, and the far one on the other.
    pub(crate) fn of(side: Side, near: u16, far: u16) -> Links
        ensures { result ≡ links_of side near far }
    {
        match side {
            Side::Left => Links {
                left: near,
                right: far,
            },
            Side::Right => Links {
                left: far,
                right: near,
            },
        }
    }

    // Puts another link on a side.
    pub(crate) fn put(&mut self, side: Side, link: u16)
        ensures { self.new ≡ links_of side link (link_on (across side) self.old) }
    {
        match side {
            Side::Left => self.left = link,
            Side::Right => self.right = link,
        }
    }

    // The link on a side.
    pub(crate) fn on(self, side: Side) -> u16
        ensures { result ≡ link_on side self }
    {
        match side {
            Side::Left => self.left,
            Side::Right => self.right,
        }
    }
}
