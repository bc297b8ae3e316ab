//! In which cells a core has what is a server's or a worker's.
ghost use Rattle.std.specs.Prelude.{◌≡◌};
ghost use Rattle.core_shard.specs.volap_cell.specs.Setting.{Setting, desk_cell, image_cell, ledger_cell, map_cell, registry_cell, stock_cell};

use row_ledger::Use;

/// The cell of the ledger.
pub fn ledger_place() -> u32
    ensures { result ≡ ledger_cell }
{
    0
}

/// The cell of the stock.
pub fn stock_place() -> u32
    ensures { result ≡ stock_cell }
{
    1
}

/// The cell of the registry.
pub fn registry_place() -> u32
    ensures { result ≡ registry_cell }
{
    2
}

/// The cell of a server's image.
pub fn image_place(server: u8) -> u32
    ensures { result ≡ image_cell server }
{
    3 + u32::from(server)
}

/// The cell of a server's desk, in a core with so many servers.
pub fn desk_place(with: &Use, server: u8) -> u32
    ensures { (s : Setting) → s.servers ≡ with.now.servers → result ≡ desk_cell s server }
{
    3 + u32::from(with.servers) + u32::from(server)
}

/// The cell of a worker's map, in a core with so many servers.
pub fn map_place(with: &Use, worker: u8) -> u32
    ensures { (s : Setting) → s.servers ≡ with.now.servers → result ≡ map_cell s worker }
{
    let servers = u32::from(with.servers);
    3 + servers + servers + u32::from(worker)
}
