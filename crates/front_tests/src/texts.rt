//! Owned copies of texts, names among them, and items of a name.

use js_base::named::{Named, first_repeated, place_of};
use js_base::names::name_text;
use js_base::text::{owned_text, owned_texts};
use std::test::Fail;

/// An item with a name.
#[derive(Drop)]
struct Item {
    name: String,
}

impl Named for Item {
    ghost use Rattle.std.specs.Prelude.{string_bytes};

    ghost called = { λ item. string_bytes item.name };

    fn name(&self) -> &str {
        self.name.as_str()
    }
}

#[test]
fn copies_texts(rt: HostRuntime) -> Result<(), Fail> {
    let alloc = rt.alloc();
    let text = owned_text(alloc, "a\u{e4}\n")?;
    assert_eq!(rt; text.as_str(), "a\u{e4}\n");
    let texts = vec![in alloc; text, name_text(alloc, b"If_0")?]?;
    let copies = owned_texts(alloc, &texts)?;
    assert_eq!(rt; copies.len(), 2);
    assert_eq!(rt; copies[0].as_str(), "a\u{e4}\n");
    assert_eq!(rt; copies[1].as_str(), "If_0");
    Ok(())
}

#[test]
fn finds_items_by_name(rt: HostRuntime) -> Result<(), Fail> {
    let alloc = rt.alloc();
    let mut items = Vec::new(alloc);
    for name in "a bb a bb".split_whitespace() {
        items.push(Item {
            name: owned_text(alloc, name)?,
        })?;
    }
    assert_eq!(rt; place_of(&items, "bb"), Some(1));
    assert_eq!(rt; place_of(&items, "b"), None);
    assert_eq!(rt; first_repeated(&items), Some(2));
    assert_eq!(rt; first_repeated(&items[1..3]), None);
    Ok(())
}
