use crate::item::{Item, ItemWith};
use crate::key::Key;
use crate::line::read_line;
use crate::statement::{PrintLine, TextTooShort, print_lines};
use prices::Block;
use std::test::Fail;

// The place at which a line that ends the file breaks; 0 if it is sound.
// Places count from 1, so that 0 is none in the tables of these tests.
fn place(line: &[u8], last: Option<Key>) -> usize {
    match read_line(line, 0, last) {
        Ok(_) => 0,
        Err(broken) => broken.place,
    }
}

#[test]
fn keys_and_numbers_break_at_their_places(rt: HostRuntime) {
    assert_eq!(rt; place(b"hour=01\n", None), 7);
    assert_eq!(rt; place(b"hour=\n", None), 6);
    assert_eq!(rt; place(b"hour=4294967295\n", None), 0);
    assert_eq!(rt; place(b"hour=4294967296\n", None), 15);
    assert_eq!(rt; place(b"hour=12345678901\n", None), 16);
    assert_eq!(rt; place(b"hour=7\r\n", None), 7);
    assert_eq!(rt; place(b"hour=12", None), 8);
    assert_eq!(rt; place(b"Hour=7\n", None), 1);
    assert_eq!(rt; place(b"hou", None), 1);
    assert_eq!(rt; place(b"hour=7\n", Some(Key::Hour)), 1);
    assert_eq!(rt; place(b"offer=1,1:1\n", Some(Key::Order)), 1);
    assert_eq!(rt; place(b"\n", Some(Key::Rule)), 1);
}

#[test]
fn fields_break_at_their_places(rt: HostRuntime) {
    let last = Some(Key::Hour);
    assert_eq!(rt; place(b"asset=1,GG,1\n", last), 10);
    assert_eq!(rt; place(b"asset=1,g,1\n", last), 9);
    assert_eq!(rt; place(b"offer=1\n", last), 8);
    assert_eq!(rt; place(b"offer=1,50\n", last), 11);
    assert_eq!(rt; place(b"offer=1,50:3000,\n", last), 17);
    assert_eq!(rt;
        place(b"offer=1,1:1,1:2,1:3,1:4,1:5,1:6,1:7,1:8\n", last),
        36
    );
    assert_eq!(rt; place(b"order=1,00,5\n", last), 10);
    assert_eq!(rt; place(b"meter=1,100,5\n", last), 12);
    assert_eq!(rt; place(b"rule=rubbing\n", last), 8);
    assert_eq!(rt; place(b"rule=larg\n", last), 10);
    assert_eq!(rt; place(b"rule=running", last), 13);
    assert_eq!(rt; place(b"rule=largests\n", last), 13);
}

#[test]
fn an_offer_is_read(rt: HostRuntime) -> Result<(), Fail> {
    let read = read_line(b"offer=2,50:3000,50:9000\n", 0, Some(Key::Asset))?;
    assert_eq!(rt; read.next, 24);
    match read.item {
        Item::Offer { asset, blocks } => {
            assert!(rt; asset == 2 && blocks.as_slice().len() == 2);
            Ok(())
        },
        _ => Err(Fail::new("no offer")),
    }
}

#[test]
fn an_items_key_asks_nothing_of_its_blocks(rt: HostRuntime) {
    let held = [Block { size: 5, price: 9 }; 7];
    for count in [0usize, 7, 8] {
        let offer = ItemWith::Offer {
            asset: 1,
            blocks: (held, count),
        };
        assert_eq!(rt; offer.key(), Key::Offer);
    }
    assert_eq!(rt; Item::Hour { label: 1 }.key(), Key::Hour);
    let meter = Item::Meter { asset: 1, kwh: 0 };
    assert_eq!(rt; meter.key(), Key::Meter);
}

#[test]
fn a_print_fills_the_front_of_the_text(rt: HostRuntime) {
    let lines = [
        PrintLine::Sum { sum: -30 },
        PrintLine::Fault {
            line: 2,
            layer: b'H',
            row: 3,
            subject: 81,
        },
    ];
    let mut text = [b'?'; 26];
    assert_eq!(rt; print_lines(&lines, &mut text), Ok(23));
    assert!(rt; text == *b"sum=-30\nfault=2,H,3,81\n???");
    assert_eq!(rt;
        print_lines(&lines, &mut text[0..9]),
        Err(TextTooShort { needed: 23 })
    );
}
