// Lattices at their edges, most of them through code that is generic over the lattice.
use lattice::{Lattice, LatticeFault, Owners, Pair, Reversed, join_all};
use std::process::Abort;
use std::test::Fail;
use table::Table;

// kit, axis, probe, shop
const DIAMOND: [u32; 4] = [15, 10, 12, 8];

// sixteen levels, each flowing to all from itself up
const CHAIN: [u32; 16] = [
    0xffff, 0xfffe, 0xfffc, 0xfff8, 0xfff0, 0xffe0, 0xffc0, 0xff80, 0xff00, 0xfe00, 0xfc00, 0xf800,
    0xf000, 0xe000, 0xc000, 0x8000,
];

// What a lattice answers: width, bottom, top, and the join and the meet of two codes.
fn answers<L: Lattice>(lattice: &L, a: u32, b: u32) -> [u32; 5] {
    [
        lattice.width(),
        lattice.bottom(),
        lattice.top(),
        lattice.join(a, b),
        lattice.meet(a, b),
    ]
}

// A code that is no level flows nowhere, nothing flows to it, and joins and meets give bottom.
fn refuses_code<L: Lattice>(rt: &impl Abort, lattice: &L, code: u32) {
    let level = lattice.top();
    assert!(rt; !lattice.is_level(code));
    assert!(rt;
        !lattice.flows(code, code)
            & !lattice.flows(lattice.bottom(), code)
            & !lattice.flows(code, level)
    );
    assert_eq!(rt; lattice.join(code, level), lattice.bottom());
    assert_eq!(rt; lattice.join(level, code), lattice.bottom());
    assert_eq!(rt; lattice.meet(code, level), lattice.bottom());
    assert_eq!(rt; lattice.meet(level, code), lattice.bottom());
}

#[test]
fn tables_at_their_edges(rt: HostRuntime) -> Result<(), Fail> {
    assert_eq!(rt; Table::new(3, &[1, 2]).err(), Some(LatticeFault::ShortRows));
    assert_eq!(rt;
        Table::new(0, &[]).err(),
        Some(LatticeFault::CountOutOfRange { count: 0 })
    );
    assert_eq!(rt;
        Table::new(17, &[1; 17]).err(),
        Some(LatticeFault::CountOutOfRange { count: 17 })
    );
    assert_eq!(rt;
        Table::new(2, &[7, 2]).err(),
        Some(LatticeFault::OrderBroken { row: 0 })
    );
    assert_eq!(rt;
        Table::new(2, &[1, 1]).err(),
        Some(LatticeFault::OrderBroken { row: 1 })
    );
    assert_eq!(rt;
        Table::new(2, &[3, 3]).err(),
        Some(LatticeFault::OrderBroken { row: 0 })
    );
    assert_eq!(rt;
        Table::new(3, &[3, 6, 4]).err(),
        Some(LatticeFault::OrderBroken { row: 0 })
    );
    assert_eq!(rt;
        Table::new(2, &[1, 2]).err(),
        Some(LatticeFault::NoBound { low: 0, high: 1 })
    );
    assert_eq!(rt; answers(&Table::new(1, &[1])?, 0, 0), [1, 0, 0, 0, 0]);
    assert_eq!(rt; answers(&Table::new(16, &CHAIN)?, 3, 9), [4, 0, 15, 9, 3]);
    Ok(())
}

#[test]
fn owners_and_pairs_at_their_edges(rt: HostRuntime) -> Result<(), Fail> {
    assert_eq!(rt;
        Owners::new(0).err(),
        Some(LatticeFault::CountOutOfRange { count: 0 })
    );
    assert_eq!(rt;
        Owners::new(33).err(),
        Some(LatticeFault::CountOutOfRange { count: 33 })
    );
    assert_eq!(rt; answers(&Owners::new(32)?, 6, 3), [32, 0, u32::MAX, 7, 2]);
    let wide = Pair::new(Owners::new(20)?, Owners::new(12)?)?;
    assert_eq!(rt;
        answers(&wide, 0x1001, 0x2002),
        [32, 0, u32::MAX, 0x3003, 0]
    );
    let wider = Pair::new(Owners::new(20)?, Owners::new(13)?);
    assert_eq!(rt; wider.err(), Some(LatticeFault::TooWide { sum: 33 }));
    Ok(())
}

#[test]
fn codes_that_are_no_levels(rt: HostRuntime) -> Result<(), Fail> {
    refuses_code(&rt, &Table::new(4, &DIAMOND)?, 4);
    refuses_code(&rt, &Owners::new(3)?, 8);
    // bottom of a reversed lattice is the other's top
    refuses_code(&rt, &Reversed::new(Table::new(3, &[7, 6, 4])?), 3);
    // three levels take two bits, so 3 is no level of the left part, nor of the right
    let pair = Pair::new(Table::new(3, &[7, 6, 4])?, Table::new(3, &[7, 6, 4])?)?;
    refuses_code(&rt, &pair, 3);
    refuses_code(&rt, &pair, 12);
    refuses_code(&rt, &pair, 16);
    Ok(())
}

#[test]
fn piles_fold(rt: HostRuntime) -> Result<(), Fail> {
    // bottom need not be code 0
    let upside_down = Table::new(2, &[1, 3])?;
    assert_eq!(rt; answers(&upside_down, 0, 1), [1, 1, 0, 0, 1]);
    assert_eq!(rt; join_all(&upside_down, &[]), 1);
    let pile = Pair::new(Reversed::new(Owners::new(2)?), Table::new(4, &DIAMOND)?)?;
    assert_eq!(rt; join_all(&pile, &[]), 12);
    assert_eq!(rt; join_all(&pile, &[13, 14, 12]), 15);
    assert_eq!(rt; join_all(&pile, &[13, 9]), 9);
    let pairs = Pair::new(
        Pair::new(upside_down, upside_down)?,
        Pair::new(Owners::new(1)?, upside_down)?,
    )?;
    assert_eq!(rt;
        answers(&pairs, 0b1101, 0b0111),
        [4, 0b1101, 0b0010, 0b0111, 0b1101]
    );
    assert_eq!(rt; join_all(&pairs, &[0b1101, 0b0111, 0b1100]), 0b0110);
    Ok(())
}
