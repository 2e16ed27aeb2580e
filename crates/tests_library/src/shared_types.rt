use tab_core::VcpuSet;

#[test]
fn a_set_takes_32_bytes(rt: HostRuntime) {
    assert_eq!(rt; size_of::<VcpuSet>(), 32);
}
