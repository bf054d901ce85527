// The texts of the programs.

/// Ranks by links: 1000000 stands for 1.
pub const RANK: &[u8] = b"\
    program rank\n\
    vertices 1000000\n\
    degree 1000000\n\
    edges 8000000\n\
    weight -1000000 1000000\n\
    attr -1000000 1000000\n\
    rounds 10\n\
    combine sum\n\
    lane 0 0 1000000000000\n\
    init 0 1000000\n\
    contribute 0 val[0] / outdeg\n\
    apply 0 clamp(150000 + agg[0] * 17 / 20, 0, 1000000000000)\n\
";

/// Two labels, each lane a share of 1000000.
pub const LABELS2: &[u8] = b"\
    program labels2\n\
    vertices 1000000\n\
    degree 1000000\n\
    edges 8000000\n\
    weight 1 1000\n\
    attr 0 2\n\
    rounds 10\n\
    combine sum\n\
    lane 0 0 1000000\n\
    lane 1 0 1000000\n\
    init 0 if(attr = 1, 1000000, 0)\n\
    init 1 if(attr = 2, 1000000, 0)\n\
    contribute 0 val[0] * weight\n\
    contribute 1 val[1] * weight\n\
    apply 0 if(attr = 1, 1000000, if(0 < attr, 0, clamp(agg[0] * 1000000 / max(agg[0] + \
    agg[1], 1), 0, 1000000)))\n\
    apply 1 if(attr = 2, 1000000, if(0 < attr, 0, clamp(agg[1] * 1000000 / max(agg[0] + \
    agg[1], 1), 0, 1000000)))\n\
";

/// Four labels, each lane a share of 1000000.
pub const LABELS4: &[u8] = b"\
    program labels4\n\
    vertices 1000000\n\
    degree 1000000\n\
    edges 8000000\n\
    weight 1 1000\n\
    attr 0 4\n\
    rounds 10\n\
    combine sum\n\
    lane 0 0 1000000\n\
    lane 1 0 1000000\n\
    lane 2 0 1000000\n\
    lane 3 0 1000000\n\
    init 0 if(attr = 1, 1000000, 0)\n\
    init 1 if(attr = 2, 1000000, 0)\n\
    init 2 if(attr = 3, 1000000, 0)\n\
    init 3 if(attr = 4, 1000000, 0)\n\
    contribute 0 val[0] * weight\n\
    contribute 1 val[1] * weight\n\
    contribute 2 val[2] * weight\n\
    contribute 3 val[3] * weight\n\
    apply 0 if(attr = 1, 1000000, if(0 < attr, 0, clamp(agg[0] * 1000000 / max(agg[0] + \
    agg[1] + agg[2] + agg[3], 1), 0, 1000000)))\n\
    apply 1 if(attr = 2, 1000000, if(0 < attr, 0, clamp(agg[1] * 1000000 / max(agg[0] + \
    agg[1] + agg[2] + agg[3], 1), 0, 1000000)))\n\
    apply 2 if(attr = 3, 1000000, if(0 < attr, 0, clamp(agg[2] * 1000000 / max(agg[0] + \
    agg[1] + agg[2] + agg[3], 1), 0, 1000000)))\n\
    apply 3 if(attr = 4, 1000000, if(0 < attr, 0, clamp(agg[3] * 1000000 / max(agg[0] + \
    agg[1] + agg[2] + agg[3], 1), 0, 1000000)))\n\
";

/// Least distances from the vertices of attribute 1.
pub const DIST: &[u8] = b"\
    program dist\n\
    vertices 1000000\n\
    degree 1000000\n\
    edges 8000000\n\
    weight 0 1000000\n\
    attr 0 1\n\
    rounds 16\n\
    combine min 1000000000000000\n\
    param far 1000000000000000\n\
    lane 0 0 1000000000000000\n\
    init 0 if(attr = 1, 0, far)\n\
    contribute 0 min(val[0] + weight, far)\n\
    apply 0 min(old[0], agg[0])\n\
";

/// Weights of the whole of i64, one edge to each vertex.
pub const WIDE: &[u8] = b"\
    program wide\n\
    vertices 1000000\n\
    degree 1\n\
    edges 1000000\n\
    weight -9223372036854775808 9223372036854775807\n\
    attr 0 0\n\
    rounds 2\n\
    combine sum\n\
    lane 0 -9223372036854775808 9223372036854775807\n\
    init 0 0\n\
    contribute 0 weight\n\
    apply 0 agg[0]\n\
";
