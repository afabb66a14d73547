use crate::same::same;
use crate::sample::header;
use halt_forward::{HaltFault, HaltPass, HaltTable};
use lf_base::Pos;
use lf_sqlite_pages::Change;
use ltx_codec::{Header, Ltx};
use std::alloc::Global;
use std::process::Abort;
use test_base::{ONE_PAGE, TWO_PAGES};

const A: Pos = Pos {
    txid: 1,
    sum: ONE_PAGE,
};

const B: Pos = Pos {
    txid: 2,
    sum: TWO_PAGES,
};

/// The file that leads from A to B; its pages do not matter here.
#[tactic(auto, unfolding(lf_sqlite_pages::specs::PageSize::is_page_size))]
fn file(alloc: Global) -> Ltx {
    Ltx {
        header: Header {
            node: 2,
            ..header(512, 2, 2, A.sum)
        },
        change: Change::new(alloc, 512, 2),
        post: B.sum,
    }
}

fn gone(number: u64) -> HaltFault {
    HaltFault::HaltGone { number }
}

/// The permit is out: no other is granted, to any node, and only its number is given back.
fn is_held(rt: &impl Abort, table: &mut HaltTable) {
    let held = HaltFault::HaltHeld {
        number: 1,
        until: 11_000,
    };
    same(rt, table.grant(1_000, 3), Err(held));
    same(rt, table.grant(10_999, 2), Err(held));
    same(rt, table.give_back(1_000, 2), Err(gone(2)));
}

/// The file is accepted under the permit, and once.
fn accepts_once(rt: &impl Abort, table: &mut HaltTable, ltx: &Ltx) {
    let behind = HaltFault::Behind { have: B, want: A };
    same(rt, table.accept(10_999, 1, A, ltx), Ok(()));
    same(rt, table.accept(10_999, 1, B, ltx), Err(behind));
    same(rt, table.accept(10_999, 2, B, ltx), Err(gone(2)));
}

/// A permit of ten seconds, a file that is accepted under it once, and other nodes that are refused.
#[test]
fn a_permit_is_out(rt: HostRuntime) {
    let mut table = HaltTable::new(10_000);
    let pass = HaltPass {
        number: 1,
        until: 0x2af8,
    };
    let ltx = file(rt.alloc());
    same(rt, table.accept(999, 1, A, &ltx), Err(gone(1)));
    same(rt, table.grant(1_000, 2), Ok(pass));
    is_held(&rt, &mut table);
    accepts_once(&rt, &mut table, &ltx);
    same(rt, table.out(10_999), Some(pass));
    same(rt, table.out(11_000), None);
    same(rt, table.accept(1, 1, A, &ltx), Err(gone(1)));
}

#[test]
fn permits_follow_one_another(rt: HostRuntime) {
    let mut table = HaltTable::new(10_000);
    for number in 1..=3u64 {
        let pass = HaltPass {
            number,
            until: 15_000,
        };
        same(rt, table.grant(5_000, number), Ok(pass));
        same(rt, table.give_back(0, number), Ok(()));
        same(rt, table.give_back(0, number), Err(gone(number)));
    }
    same(rt, table.grant(u64::MAX - 9_999, 1), Err(HaltFault::Limit));
}
