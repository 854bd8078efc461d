//! The driver sets of the rows: each is accepted.

/// A driver that completes writes. Above it one with a queue, whose DPC routine completes what it
/// takes out of it: reads are queued as they come, and writes once they come back completed from
/// below. Above that one that passes reads down, and one that calls that.
pub(crate) const STACKS: &[u8] = b"driver low\n\
      dispatch WRITE f\n\
      routine f dispatch\n\
      complete r0 SUCCESS\n\
      ret SUCCESS\n\
      endr\n\
      endd\n\
      driver queues\n\
      queue q l0\n\
      dispatch READ f\n\
      dispatch WRITE w\n\
      dpc g\n\
      routine f dispatch\n\
      mark r0\n\
      acquire l0\n\
      insert r0 q\n\
      release l0\n\
      ret PENDING\n\
      endr\n\
      routine w dispatch\n\
      mark r0\n\
      call r0 h\n\
      ret PENDING\n\
      endr\n\
      routine h hold\n\
      mark r0\n\
      acquire l0\n\
      insert r0 q\n\
      release l0\n\
      ret stop\n\
      endr\n\
      routine g dpc\n\
      acquire l0\n\
      remove r0 q none\n\
      release l0\n\
      complete r0 SUCCESS\n\
      ret void\n\
      none: release l0\n\
      ret void\n\
      endr\n\
      endd\n\
      driver mid\n\
      dispatch READ f\n\
      routine f dispatch\n\
      pass r0\n\
      ret lower r0\n\
      endr\n\
      endd\n\
      driver top\n\
      dispatch READ f\n\
      routine f dispatch\n\
      call r0\n\
      ret lower r0\n\
      endr\n\
      endd\n\
      device v0 low 1\n\
      device v1 queues 2 v0\n\
      device v2 mid 2 v1\n\
      device v3 top 3 v2\n";

/// A driver that goes round a loop before it completes.
pub(crate) const LOOPS: &[u8] = b"driver d\n\
      dispatch READ f\n\
      routine f dispatch\n\
      loop 2\n\
      clear r1\n\
      end\n\
      complete r0 SUCCESS\n\
      ret SUCCESS\n\
      endr\n\
      endd\n\
      device v d 1\n";

/// A driver that takes one from zero, and answers that.
pub(crate) const SUBTRACTS: &[u8] = b"driver d\n\
      dispatch READ f\n\
      routine f dispatch\n\
      const r1 0\n\
      const r2 1\n\
      sub r1 r2\n\
      put r0 r1\n\
      complete r0 SUCCESS\n\
      ret SUCCESS\n\
      endr\n\
      endd\n\
      device v d 1\n";

/// A driver that marks its packet and completes it. Above it one that answers by its status, and
/// one whose completion routine marks what comes back marked.
pub(crate) const MARKS: &[u8] = b"driver low\n\
      dispatch READ f\n\
      routine f dispatch\n\
      mark r0\n\
      complete r0 SUCCESS\n\
      ret PENDING\n\
      endr\n\
      endd\n\
      driver up\n\
      dispatch READ f\n\
      routine f dispatch\n\
      call r0\n\
      ret lower r0\n\
      endr\n\
      endd\n\
      driver propagates\n\
      dispatch READ f\n\
      routine f dispatch\n\
      call r0 h\n\
      ret lower r0\n\
      endr\n\
      routine h propagate\n\
      ifpending r0 m\n\
      ret continue\n\
      m: mark r0\n\
      ret continue\n\
      endr\n\
      endd\n\
      device v0 low 1\n\
      device v1 up 2 v0\n\
      device v2 propagates 2 v0\n";

/// A driver with a StartIo routine, whose DPC routine completes.
pub(crate) const STARTS: &[u8] = b"driver d\n\
      dispatch READ f\n\
      startio s\n\
      dpc g\n\
      routine f dispatch\n\
      mark r0\n\
      start r0\n\
      ret PENDING\n\
      endr\n\
      routine s startio\n\
      begin r0\n\
      ret void\n\
      endr\n\
      routine g dpc\n\
      take r0 none\n\
      next\n\
      complete r0 SUCCESS\n\
      ret void\n\
      none: ret void\n\
      endr\n\
      endd\n\
      device v d 1\n";
