use case_tables::{Row, Table, each_case, first_of};

#[derive(Clone, Copy, Debug, PartialEq, Eq)]
struct Numeral {
    code: u16,
    letters: u8,
}

impl Row for Numeral {
    ghost key_of = { λ w. w.code };

    fn key(&self) -> u16 {
        self.code
    }
}

fn word(code: u16, letters: u8) -> Numeral {
    Numeral { code, letters }
}

#[test]
fn rows_by_key(rt: HostRuntime) {
    let rows = [word(1, 4), word(3, 9), word(4, 2), word(7, 5), word(500, 8)];
    let table = Table::of(&rows);
    let ordered = table.is_ordered();
    assert!(rt; ordered);
    for (key, letters) in [
        (1u16, Some(4u8)),
        (3, Some(9)),
        (4, Some(2)),
        (7, Some(5)),
        (500, Some(8)),
        (0, None),
        (2, None),
        (6, None),
        (501, None),
    ] {
        assert_eq!(rt; table.find(key).map(|w| w.letters), letters, "key {key}");
    }
    let twice = [word(1, 4), word(1, 9)];
    let falling = [word(2, 4), word(1, 9)];
    let none: [Numeral; 0] = [];
    assert!(rt; !Table::of(&twice).is_ordered());
    assert!(rt; !Table::of(&falling).is_ordered());
    assert!(rt; Table::of(&none).is_ordered());
}

fn even(number: u8) -> Option<u8> {
    if number % 2 == 0 { Some(number) } else { None }
}

fn large(number: u8) -> Option<u8> {
    if number > 100 { Some(100) } else { None }
}

#[test]
fn cases_and_first_answers(rt: HostRuntime) {
    for (number, want) in [
        (4u8, Some(4u8)),
        (101, Some(100)),
        (5, None),
        (200, Some(200)),
    ] {
        assert_eq!(rt; first_of!(even(number), large(number)), want, "of {number}");
    }
    for (number, want) in [(1u8, 10u8), (2, 20), (3, 20), (4, 0)] {
        let got = each_case!(number; 1 => 10u8, 2 | 3 => 20; 0);
        assert_eq!(rt; got, want, "of {number}");
    }
}
