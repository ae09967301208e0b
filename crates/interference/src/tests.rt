use crate::fault::ModelFault;
use crate::graph::{Edge, GraphModel};
use crate::grid::GridModel;
use crate::model::Interference;
use crate::position::Position;
use crate::transmission::Transmission;
use std::test::Fail;

fn send(from: u8, to: u8) -> Transmission {
    Transmission { from, to }
}

#[test]
fn a_receiver_that_hears_the_other_sender_conflicts(rt: HostRuntime) -> Result<(), Fail> {
    let model = GraphModel::from_edges(6, &[Edge { from: 1, to: 4 }])?;
    assert!(rt; model.conflicts(send(1, 2), send(3, 4)));
    assert!(rt; model.conflicts(send(3, 4), send(1, 2)));
    assert!(rt; !model.conflicts(send(1, 2), send(3, 5)));
    assert!(rt; model.conflicts(send(1, 2), send(2, 3)));
    assert!(rt; model.conflicts(send(1, 6), send(3, 5)));
    Ok(())
}

#[test]
fn words_and_edges_are_refused_at_the_first_offender(rt: HostRuntime) {
    assert_eq!(rt;
        GraphModel::from_words(&[]).err(),
        Some(ModelFault::NodeCount)
    );
    assert_eq!(rt;
        GraphModel::from_words(&[0b10, 0b100]).err(),
        Some(ModelFault::EdgeOutside(1))
    );
    assert_eq!(rt;
        GraphModel::from_edges(65, &[]).err(),
        Some(ModelFault::NodeCount)
    );
    let edges = [Edge { from: 0, to: 1 }, Edge { from: 1, to: 2 }];
    assert_eq!(rt;
        GraphModel::from_edges(2, &edges).err(),
        Some(ModelFault::EdgeOutside(1))
    );
    assert_eq!(rt; ModelFault::EdgeOutside(1).code(), 12);
}

#[test]
fn cells_are_rounded_down(rt: HostRuntime) {
    assert_eq!(rt; Position { x: -1, y: 0 }.cell_of(100).x, -1);
    assert_eq!(rt; Position { x: -100, y: 0 }.cell_of(100).x, -1);
    assert_eq!(rt; Position { x: -101, y: 0 }.cell_of(100).x, -2);
    assert_eq!(rt; Position { x: 0, y: 0 }.cell_of(100).x, 0);
}

#[test]
fn senders_two_cells_apart_are_free(rt: HostRuntime) -> Result<(), Fail> {
    let at = [
        Position { x: -101, y: 50 },
        Position { x: -90, y: 50 },
        Position { x: 50, y: 50 },
        Position { x: 60, y: 50 },
    ];
    let model = GridModel::open(100, &at)?;
    assert!(rt; !model.conflicts(send(0, 1), send(2, 3)));
    assert!(rt; model.conflicts(send(1, 0), send(2, 3)));
    assert_eq!(rt; GridModel::open(0, &at).err(), Some(ModelFault::Side));
    let far = [Position { x: 0, y: 1_000_001 }];
    assert_eq!(rt;
        GridModel::open(1, &far).err(),
        Some(ModelFault::Coordinate(0))
    );
    Ok(())
}
