use gs_topo::{TopoFault, Topology, Weights};
use std::alloc::{AllocError, Global};

fn fault(alloc: Global, n: u32, edges: &[(u32, u32)]) -> Option<TopoFault> {
    match Topology::new(alloc, n, edges) {
        Ok(_) => None,
        Err(fault) => Some(fault),
    }
}

#[test]
fn faults_come_in_order(rt: HostRuntime) -> Result<(), AllocError> {
    let alloc = rt.alloc();
    let many = vec![in alloc; (0u32, 1u32); 4097]?;
    assert_eq!(rt; fault(alloc, 0, &[]), Some(TopoFault::Count));
    assert_eq!(rt; fault(alloc, 513, &many), Some(TopoFault::Count));
    assert_eq!(rt; fault(alloc, 2, &many), Some(TopoFault::Edges));
    assert_eq!(rt;
        fault(alloc, 4, &[(0, 1), (4, 4)]),
        Some(TopoFault::Node(1))
    );
    assert_eq!(rt;
        fault(alloc, 4, &[(0, 1), (2, 2)]),
        Some(TopoFault::Loop(1))
    );
    assert_eq!(rt;
        fault(alloc, 4, &[(0, 1), (1, 0)]),
        Some(TopoFault::Double(1))
    );
    assert_eq!(rt;
        fault(alloc, 4, &[(0, 1), (2, 3)]),
        Some(TopoFault::Split(2))
    );
    assert_eq!(rt; fault(alloc, 1, &[]), None);
    Ok(())
}

#[test]
fn each_fault_has_its_words(rt: HostRuntime) -> Result<(), AllocError> {
    for (fault, words) in [
        (TopoFault::Count, "count"),
        (TopoFault::Edges, "edges"),
        (TopoFault::Node(0), "node 0"),
        (TopoFault::Loop(4095), "loop 4095"),
        (TopoFault::Double(4_294_967_295), "double 4294967295"),
        (TopoFault::Split(511), "split 511"),
        (TopoFault::OutOfMemory, "out of memory"),
    ] {
        assert_eq!(rt; fault.to_string(rt.alloc())?.as_str(), words);
    }
    Ok(())
}

#[test]
fn a_grid_of_two_rows(rt: HostRuntime) {
    let edges = [(4, 5), (1, 0), (1, 2), (3, 0), (3, 4), (4, 1), (2, 5)];
    let grid = match Topology::new(rt.alloc(), 6, &edges) {
        Ok(grid) => grid,
        Err(_) => panic!(rt; "no grid"),
    };
    assert_eq!(rt; grid.nodes(), 6);
    let kept = [(0, 1), (0, 3), (1, 2), (1, 4), (2, 5), (3, 4), (4, 5)];
    assert_eq!(rt; grid.edges(), kept.as_slice());
    assert_eq!(rt; grid.diameter(), 3);
    assert_eq!(rt; grid.neighbours(4), [1, 3, 5].as_slice());
    assert_eq!(rt; grid.distance(0, 5), 3);
    assert_eq!(rt; grid.closer(0, 5), 1);
    assert_eq!(rt; grid.adjacent(1, 4), true);
    assert_eq!(rt; grid.adjacent(1, 5), false);
    assert_eq!(rt; grid.edge_between(4, 1), Some(3));
    assert_eq!(rt; grid.edge_between(1, 5), None);
}

#[test]
fn weights_take_the_shortest_way(rt: HostRuntime) -> Result<(), AllocError> {
    let alloc = rt.alloc();
    let line = match Topology::new(alloc, 3, &[(0, 1), (1, 2)]) {
        Ok(line) => line,
        Err(_) => panic!(rt; "no line"),
    };
    assert!(rt; line.edges().len() == 2);
    let unequal = Weights::new(alloc, &line, &[122_529, 22_529])?;
    assert_eq!(rt; unequal.weight(&line, 0, 2), 145_058);
    let equal = Weights::new(alloc, &line, &[7, 7])?;
    assert_eq!(rt; equal.weight(&line, 2, 0), 14);
    let triangle = match Topology::new(alloc, 3, &[(0, 1), (1, 2), (0, 2)]) {
        Ok(triangle) => triangle,
        Err(_) => panic!(rt; "no triangle"),
    };
    assert!(rt; triangle.edges().len() == 3);
    let detour = Weights::new(alloc, &triangle, &[3, 9, 4])?;
    assert_eq!(rt; detour.weight(&triangle, 0, 2), 7);
    assert_eq!(rt; detour.weight(&triangle, 0, 1), 3);
    assert_eq!(rt; detour.weight(&triangle, 1, 1), 0);
    Ok(())
}
