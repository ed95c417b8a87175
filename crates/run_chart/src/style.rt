//! The style of charts of runs.

/// The colours and strokes, for light and for dark screens: what plans have too, and what only runs have, as lifelines,
/// bars, and what misbehaving hosts do.
pub const CHART_STYLE: &str = "<style>\n\
    text{font:12px ui-monospace,SFMono-Regular,Menlo,Consolas,'DejaVu Sans Mono',monospace}\n\
    .p{font-family:system-ui,-apple-system,'Segoe UI',Roboto,'DejaVu Sans',sans-serif}\n\
    .s{font-size:10.5px}\n\
    .b{font-weight:bold}\n\
    .t{font-size:15px;font-weight:bold}\n\
    path{fill:none;stroke-width:1.5}\n\
    .go path,.act path,.mk{stroke-width:2}\n\
    .back path{stroke-width:2;stroke-dasharray:6 3}\n\
    .set path{stroke-dasharray:6 3}\n\
    .forward path{stroke-dasharray:2 2}\n\
    .sync path{stroke-dasharray:8 3 2 3}\n\
    .get .tip,.set .tip,.forward .tip,.sync .tip,.go .tip,.back .tip,.loop .tip,.mark,.act .tip,.dot,.ack .ti\
    p{stroke:none}\n\
    g:hover>path{stroke-width:3.5}\n\
    .relay rect{stroke-dasharray:3 3}\n\
    .band{fill-opacity:.07}\n\
    .life,.ack path{stroke-width:1}\n\
    .life.bad{stroke-dasharray:2 4}\n\
    .x path{stroke-width:2.5}\n\
    .open rect{stroke-dasharray:4 3}\n\
    .rule{stroke-width:1;stroke-opacity:.35}\n\
    .halt path{stroke-width:3}\n\
    text,.go .tip,.back .tip,.go .dot,.go .m,.back .dot,.back .m{fill:#1f2328}\n\
    .d,.ack .tip,.ack .m,.ack .dot{fill:#57606a}\n\
    .ground{fill:#ffffff}\n\
    .lane{fill:#f3f4f6}\n\
    .host rect{fill:#dde7f1;stroke:#57606a}\n\
    .field rect{fill:#fbf3d9;stroke:#a88b3a}\n\
    .statement rect,.relay rect{fill:#ffffff;stroke:#9aa4ae}\n\
    .statement .mark{fill:#e69f00;stroke:none}\n\
    .mark{fill:#e69f00}\n\
    .band,.loop .tip,.loop text,.get .tip,.set .tip,.get .dot,.get .m,.set .dot,.set .m{fill:#0072b2}\n\
    .loop path,.get path,.set path{stroke:#0072b2}\n\
    .forward path,.kept .mk{stroke:#00785a}\n\
    .forward .tip,.ride,.forward .dot,.forward .m{fill:#00785a}\n\
    .sync path{stroke:#a23c80}\n\
    .sync .tip,.push,.sync .dot,.sync .m{fill:#a23c80}\n\
    .go path,.back path,.halt path{stroke:#1f2328}\n\
    .ring{fill:#ffffff;stroke:#1f2328}\n\
    .host.bad rect,.open rect{fill:#fdeee6;stroke:#b84500}\n\
    .host.bad text,.act .tip,.act text,.no,.seen text,.open .no{fill:#b84500}\n\
    .life,.rule{stroke:#9aa4ae}\n\
    .life.bad,.act path,.x path{stroke:#b84500}\n\
    .run{fill:#56b4e9}\n\
    .wait{fill:#ffffff;stroke:#56b4e9}\n\
    .seen circle{fill:#ffffff;stroke:#b84500}\n\
    .kept rect{fill:#ffffff;stroke:#00785a}\n\
    .ack path{stroke:#57606a}\n\
    @media(prefers-color-scheme:dark){\n\
    text,.go .tip,.back .tip,.go .dot,.go .m,.back .dot,.back .m{fill:#e6edf3}\n\
    .d,.ack .tip,.ack .m,.ack .dot{fill:#9da7b3}\n\
    .ground{fill:#0d1117}\n\
    .lane{fill:#161b22}\n\
    .host rect{fill:#1f2d3d;stroke:#9da7b3}\n\
    .field rect{fill:#2b2611;stroke:#b89b4a}\n\
    .statement rect,.relay rect{fill:#0d1117;stroke:#6e7681}\n\
    .statement .mark{fill:#e69f00;stroke:none}\n\
    .mark{fill:#e69f00}\n\
    .band,.loop .tip,.loop text,.get .tip,.set .tip,.get .dot,.get .m,.set .dot,.set .m{fill:#56b4e9}\n\
    .loop path,.get path,.set path{stroke:#56b4e9}\n\
    .forward path,.kept .mk{stroke:#3ecf9f}\n\
    .forward .tip,.ride,.forward .dot,.forward .m{fill:#3ecf9f}\n\
    .sync path{stroke:#e08fc0}\n\
    .sync .tip,.push,.sync .dot,.sync .m{fill:#e08fc0}\n\
    .go path,.back path,.halt path{stroke:#e6edf3}\n\
    .ring{fill:#0d1117;stroke:#e6edf3}\n\
    .host.bad rect,.open rect{fill:#33190c;stroke:#ff8a4c}\n\
    .host.bad text,.act .tip,.act text,.no,.seen text,.open .no{fill:#ff8a4c}\n\
    .life,.rule{stroke:#6e7681}\n\
    .life.bad,.act path,.x path{stroke:#ff8a4c}\n\
    .run{fill:#2f7fb8}\n\
    .wait{fill:#0d1117;stroke:#2f7fb8}\n\
    .seen circle{fill:#0d1117;stroke:#ff8a4c}\n\
    .kept rect{fill:#0d1117;stroke:#3ecf9f}\n\
    .ack path{stroke:#9da7b3}\n\
    }\n\
    </style>\n";
