use app_tree::{Draft, DraftForm, DraftItem, DraftItems, Name};
use rx_value::{RxText, Value};
use std::test::Fail;

#[test]
fn a_draft_holds_what_is_written(rt: HostRuntime) -> Result<(), Fail> {
    let alloc = rt.alloc();
    let mut items = DraftItems::new(alloc);
    items.push(DraftItem {
        place: 3,
        name: Name {
            text: RxText::from_str(alloc, "n")?,
            place: 9,
        },
        form: DraftForm::Input(Value::Null),
    })?;
    let draft = Draft::new(12, items);
    assert_eq!(rt; draft.budget(), 12);
    assert_eq!(rt; draft.items().len(), 1);
    assert_eq!(rt; draft.items().as_slice()[0].place, 3);
    Ok(())
}
