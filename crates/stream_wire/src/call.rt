use lf_base::Name;

/// Which call of the node a request is, by its method and target.
#[derive(Debug, Drop)]
pub enum Call {
    /// `POST /stream`: the stream of a database from a position on.
    Stream,
    /// `POST /halt`: a write permit.
    Halt,
    /// `DELETE /halt`: a write permit given back.
    HaltBack,
    /// `POST /tx`: a commit made elsewhere under a write permit.
    Tx,
    /// `GET /export?name=x`: the database's bytes.
    Export { name: Name },
    /// `POST /import?name=x`: a database in its place.
    Import { name: Name },
    /// `POST /lease`: the lease service.
    Lease,
    /// `GET /info`: what the node is, and where it stands.
    Info,
    /// `GET /metrics`: its figures.
    Metrics,
    /// `GET /events`: its transactions, as they come.
    Events,
    /// Any other method or target, and a query whose name is no name of a database.
    Other,
}
