//! Where the object of a declaration is.

ghost use Rattle.std.specs.Prelude.{◌≡◌, option_map};
ghost use Rattle.ec_code.specs.Trees.{leaf_view};
ghost use Rattle.ec_resolving_defs.specs.Storage as of;
ghost use Rattle.ec_resolve_values.specs.storage.Stored.{site_view};

use ec_code::Leaf;

/// Where the object of a declaration is.
#[derive(Clone, Copy, Debug, PartialEq, Eq)]
pub enum Site {
    /// The number of a global object.
    Numbered(u32),
    /// The place of an object of a function among those in scope.
    Slotted(u32),
    /// A function is no object.
    Nowhere,
}

/// The object of a declaration, or what stands for a fault where there is none.
pub fn site_leaf(site: Option<Site>) -> Leaf
    ensures { leaf_view result ≡ of.site_exp (option_map site_view site) }
{
    match site {
        Some(Site::Numbered(number)) => Leaf::Object(number),
        Some(Site::Slotted(slot)) => Leaf::Slot(slot),
        Some(Site::Nowhere) => Leaf::Faulty,
        None => Leaf::Faulty,
    }
}
