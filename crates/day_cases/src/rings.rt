use crate::helpers::check_reports;
use std::test::Fail;

// Four nodes, q = 3: node 0 broadcasts a payment, the others relay it, and all acknowledge it. Nodes 0 and 1 hear three
// nodes on it, node 2 hears two, and node 3 all four. A letter that was received is refused.
#[test]
fn four_nodes(rt: HostRuntime) -> Result<(), Fail> {
    let day: [u8; 57] = [
        4, 3, 1, 1, 1, 0, 6, 1, 0, 0, 0xB2, 0x80, 0x02, 2, 0, 2, 1, 2, 2, 2, 3, 3, 0, 3, 1, 3, 2,
        3, 3, 2, 16, 2, 20, 2, 24, 2, 17, 2, 21, 2, 25, 2, 18, 2, 22, 2, 19, 2, 23, 2, 27, 2, 31,
        2, 16, 3, 0,
    ];
    let text =
        "node 0 stage 1 live 0\nnode 1 stage 1 live 0\nnode 2 stage 1 live\nnode 3 stage 1 live 0\naccepted 21 refused 2\n";
    check_reports(&rt, rt.alloc(), &[(&day, text)])
}

// Five nodes, q = 4, of which node 4 crashes before it receives anything. Letters to it are lost, or cannot be received;
// one between live nodes cannot be lost. Node 0 hears all four live nodes on the payment, node 1 three of them.
#[test]
fn five_nodes(rt: HostRuntime) -> Result<(), Fail> {
    let day: [u8; 55] = [
        5, 4, 1, 1, 1, 0, 6, 1, 0, 0, 0xB2, 0x80, 0x02, 4, 4, 5, 4, 2, 0, 2, 1, 2, 2, 2, 3, 3, 0,
        3, 1, 3, 2, 3, 3, 2, 20, 2, 25, 2, 30, 2, 35, 2, 21, 2, 26, 2, 31, 2, 24, 5, 9, 5, 5, 3, 4,
    ];
    let text =
        "node 0 stage 1 live 0\nnode 1 stage 1 live\nnode 2 stage 1 live\nnode 3 stage 1 live\nnode 4 stage 1 crashed\naccepted 19 refused 3\n";
    check_reports(&rt, rt.alloc(), &[(&day, text)])
}

// Six nodes, q = 5: node 5 broadcasts a payment. Node 3 hears the first five nodes on it, and node 5 the first four and
// itself. Nothing is left for node 5 to acknowledge.
#[test]
fn six_nodes(rt: HostRuntime) -> Result<(), Fail> {
    let day: [u8; 59] = [
        6, 5, 1, 1, 1, 5, 6, 1, 0, 0, 0xB2, 0x80, 0x02, 2, 5, 2, 0, 2, 1, 2, 2, 2, 3, 2, 4, 3, 0,
        3, 1, 3, 2, 3, 3, 3, 4, 3, 5, 2, 39, 2, 45, 2, 51, 2, 57, 2, 63, 2, 41, 2, 47, 2, 53, 2,
        59, 2, 71, 3, 5,
    ];
    let text =
        "node 0 stage 1 live\nnode 1 stage 1 live\nnode 2 stage 1 live\nnode 3 stage 1 live 0\nnode 4 stage 1 live\nnode 5 stage 1 live 0\naccepted 23 refused 1\n";
    check_reports(&rt, rt.alloc(), &[(&day, text)])
}

// Two nodes with Rounds and Lowest-of, whose need is 2: both close over a round that a player posts, message 0, and an
// adjustment of that player's rounds, message 1. Only node 1 has the round that is message 2, and it proposes first and
// waits; once node 0 proposed, its pair is decided. In stage 2, node 1 acknowledges message 2.
#[test]
fn rounds_by_the_lowest_of_two(rt: HostRuntime) -> Result<(), Fail> {
    let day: [u8; 65] = [
        2, 2, 2, 2, 1, 0, 6, 1, 3, 100, 0xB2, 0x80, 0x02, 1, 1, 6, 2, 3, 0, 0xB2, 0x80, 0x02, 1, 1,
        6, 1, 3, 99, 0xB2, 0x80, 0x02, 2, 0, 2, 2, 2, 1, 2, 3, 2, 5, 3, 1, 3, 0, 2, 10, 2, 12, 2,
        11, 2, 13, 3, 1, 3, 1, 3, 0, 3, 1, 3, 0, 3, 1,
    ];
    let text = "node 0 stage 2 live 0 1\nnode 1 stage 2 live 0 1\naccepted 19 refused 1\n";
    check_reports(&rt, rt.alloc(), &[(&day, text)])
}
