use crate::helpers::check_reports;
use report::report::report_of;
use std::test::Fail;

// Days by a ring of one node.
#[test]
fn one_node(rt: HostRuntime) -> Result<(), Fail> {
    let cases: [(&[u8], &str); 6] = [
        // no entry
        (&[1, 1, 1, 1], "node 0 stage 1 live\naccepted 0 refused 0\n"),
        // a payment is acknowledged and delivered; the last step finds nothing new
        (
            &[
                1, 1, 1, 1, 1, 0, 6, 1, 0, 0, 0xB2, 0x80, 0x02, 2, 0, 3, 0, 2, 1, 3, 0,
            ],
            "node 0 stage 1 live 0\naccepted 4 refused 1\n",
        ),
        // a payment and a draw conflict: the stage is closed, proposed and settled
        (
            &[
                1, 1, 1, 1, 1, 0, 6, 1, 0, 0, 0xB2, 0x80, 0x02, 1, 0, 6, 2, 0, 0, 0xB2, 0x80, 0x02,
                2, 0, 2, 1, 3, 0, 2, 2, 3, 0, 3, 0, 3, 0,
            ],
            "node 0 stage 2 live 0 1\naccepted 8 refused 1\n",
        ),
        // a node spelled longer than need be
        (
            &[1, 1, 1, 1, 3, 0x80, 0],
            "node 0 stage 1 live\naccepted 0 refused 0\nfault 42 at 5\n",
        ),
        // a body of six bytes, of which two are there
        (
            &[1, 1, 1, 1, 1, 0, 6, 1, 0],
            "node 0 stage 1 live\naccepted 0 refused 0\nfault 44 at 7\n",
        ),
        // a fault after a refused step
        (
            &[1, 1, 2, 2, 3, 0, 3, 0x80],
            "node 0 stage 1 live\naccepted 0 refused 1\nfault 41 at 7\n",
        ),
    ];
    check_reports(&rt, rt.alloc(), &cases)
}

// Days by a ring of one node, by what its record finds lawful.
#[test]
fn kinds_of_record(rt: HostRuntime) -> Result<(), Fail> {
    let cases: [(&[u8], &str); 3] = [
        // a round is lawful for Rounds
        (
            &[
                1, 1, 1, 2, 1, 0, 6, 1, 3, 100, 0xB2, 0x80, 0x02, 2, 0, 3, 0, 2, 1,
            ],
            "node 0 stage 1 live 0\naccepted 4 refused 0\n",
        ),
        // and unlawful for Kitty: nothing is sent
        (
            &[
                1, 1, 1, 1, 1, 0, 6, 1, 3, 100, 0xB2, 0x80, 0x02, 2, 0, 3, 0, 2, 1,
            ],
            "node 0 stage 1 live\naccepted 0 refused 4\n",
        ),
        // closing the book and paying are for different sides of the pair
        (
            &[
                1, 1, 1, 3, 1, 0, 7, 0xFF, 0x01, 1, 0, 0x80, 0x80, 0x02, 1, 0, 6, 1, 0, 0, 0xB2,
                0x80, 0x02, 2, 0, 2, 1, 3, 0, 2, 2,
            ],
            "node 0 stage 1 live 0 1\naccepted 6 refused 0\n",
        ),
    ];
    check_reports(&rt, rt.alloc(), &cases)
}

// Days by several nodes.
#[test]
fn several_nodes(rt: HostRuntime) -> Result<(), Fail> {
    let cases: [(&[u8], &str); 3] = [
        // a crash, a letter to the crashed node that cannot be received and is lost, one that cannot be lost
        (
            &[
                2, 2, 2, 1, 1, 0, 6, 1, 0, 0, 0xB2, 0x80, 0x02, 4, 1, 2, 1, 5, 1, 5, 0,
            ],
            "node 0 stage 1 live\nnode 1 stage 1 crashed\naccepted 3 refused 2\n",
        ),
        // an unknown entry
        (
            &[3, 3, 2, 3, 4, 1, 9],
            "node 0 stage 1 live\nnode 1 stage 1 crashed\nnode 2 stage 1 live\naccepted 1 refused 0\nfault 43 at 6\n",
        ),
        // bytes left in a body, after a broadcast by a node that there is not
        (
            &[
                2, 2, 1, 1, 1, 2, 6, 1, 0, 0, 0xB2, 0x80, 0x02, 1, 0, 5, 1, 0, 0, 0, 9,
            ],
            "node 0 stage 1 live\nnode 1 stage 1 live\naccepted 0 refused 1\nfault 44 at 20\n",
        ),
    ];
    check_reports(&rt, rt.alloc(), &cases)
}

// Two nodes close over the payment 0 and the draw 1; only node 1 has the payment 2, and it proposes first. First-come
// decides by that proposal, Lowest-of, once both proposed, by node 0's.
#[test]
fn two_choosers(rt: HostRuntime) -> Result<(), Fail> {
    let heap = rt.alloc();
    let cases: [(u8, &str); 2] = [
        (
            1,
            "node 0 stage 2 live 0 1 2\nnode 1 stage 2 live 0 1 2\naccepted 18 refused 2\n",
        ),
        (
            2,
            "node 0 stage 2 live 0 1\nnode 1 stage 2 live 0 1\naccepted 19 refused 1\n",
        ),
    ];
    for (chooser, text) in cases {
        let day: [u8; 65] = [
            2, 2, chooser, 1, 1, 0, 6, 1, 0, 0, 0xB2, 0x80, 0x02, 1, 1, 6, 2, 0, 0, 0xB2, 0x80,
            0x02, 1, 1, 6, 1, 0, 0, 0xB2, 0x80, 0x02, 2, 0, 2, 2, 2, 1, 2, 3, 2, 5, 3, 1, 3, 0, 2,
            10, 2, 12, 2, 11, 2, 13, 3, 1, 3, 1, 3, 0, 3, 1, 3, 0, 3, 1,
        ];
        let got = report_of(heap, &day)?;
        assert_eq!(rt; got.as_str(), text);
    }
    Ok(())
}

// Three nodes, of which the first delivers a payment early and the others nothing yet.
#[test]
fn early(rt: HostRuntime) -> Result<(), Fail> {
    let heap = rt.alloc();
    let day: [u8; 33] = [
        3, 3, 1, 1, 1, 0, 6, 1, 0, 0, 0xB2, 0x80, 0x02, 2, 0, 2, 1, 2, 2, 3, 0, 3, 1, 3, 2, 2, 9,
        2, 12, 2, 15, 2, 15,
    ];
    let got = report_of(heap, &day)?;
    assert_eq!(rt;
        got.as_str(),
        "node 0 stage 1 live 0\nnode 1 stage 1 live\nnode 2 stage 1 live\naccepted 10 refused 1\n"
    );
    Ok(())
}
