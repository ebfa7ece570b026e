//! Attributes of objects whose entries change (docs/commands.md, "Numbers").

ghost use Rattle.std.specs.Prelude.{◌≡◌};
ghost use Rattle.r4_content.specs.Objects.{entry_less, entry_more, link_less, link_more};

use r4_base::Attr;

/// An object with a link more, as far as the number goes.
pub(crate) fn link_more(attr: Attr) -> Attr
    ensures { result ≡ link_more attr }
{
    let nlink = if attr.nlink < u32::MAX {
        attr.nlink + 1
    } else {
        attr.nlink
    };
    Attr { nlink, ..attr }
}

/// An object with a link less.
pub(crate) fn link_less(attr: Attr) -> Attr
    ensures { result ≡ link_less attr }
{
    Attr {
        nlink: attr.nlink.saturating_sub(1),
        ..attr
    }
}

/// A directory with an entry more; the entry of a directory is a link, too.
pub(crate) fn entry_more(of_directory: bool, attr: Attr) -> Attr
    ensures { result ≡ entry_more of_directory attr }
{
    let size = if attr.size < u64::MAX {
        attr.size + 1
    } else {
        attr.size
    };
    let attr = Attr {
        size,
        bytes: size,
        ..attr
    };
    if of_directory {
        return link_more(attr);
    }
    attr
}

/// A directory with an entry less.
pub(crate) fn entry_less(of_directory: bool, attr: Attr) -> Attr
    ensures { result ≡ entry_less of_directory attr }
{
    let size = attr.size.saturating_sub(1);
    let attr = Attr {
        size,
        bytes: size,
        ..attr
    };
    if of_directory {
        return link_less(attr);
    }
    attr
}
