//! What a run plans, once its tables are read.

use branch_tree::Limit;
use cert_lines::Version;
use certified_search::Order;
use run_frame::Tables;
use std::marker::Model;

/// The bytes of the three tables, how many nodes the search may count and in which order, and the version and the name of the
/// certificate's file.
#[derive(Drop)]
pub struct Task<'a> {
    pub tables: Tables,
    pub limit: Limit,
    pub order: Order,
    pub version: Version,
    pub cert: Option<&'a str>,
}

impl<'a> Model for Task<'a> {
    ghost use Rattle.std.specs.Prelude.{option_map};
    ghost use Rattle.tailplan.specs.Tasks.{TaskSeen};

    ghost Value = { TaskSeen };

    ghost view = { λ t. record { tables = t.tables; limit = t.limit; order = t.order; version = t.version; cert = option_map (λ s. s.now) t.cert } };
}
